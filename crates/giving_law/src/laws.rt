//! What is given, what calls bring, and what items change.
ghost use Rattle.giving_law.specs.Giving.{BootsByImage, LicensedIsGiven, RecordIsGiven};
ghost use Rattle.giving_law.specs.Granted.{AnswersAreFound, PutsAreWritten, SendsAreSent, WordsAreOwners};
ghost use Rattle.giving_law.specs.Origins.{ConsoleHasOrigin, RegistersHaveOrigin, SentHasOrigin};

use call_verdicts::law_granted;
use run_model::law_moments;
use sharing_law::law_pages_end;

/// Each item for which an environment has a licence in a phase of a tick is given to it in this phase, and once. So with
/// `law_given_licence` an environment is given what it has a licence for, and nothing else: no start, packet, signal,
/// revocation, taking or loss of which the kernel knows is withheld. The record at boot is given alone, and what the
/// image says of a program its environment has then.
pub fn law_given()
    ensures phases { LicensedIsGiven }
    ensures boot { RecordIsGiven }
    ensures images { BootsByImage }
{
    law_pages_end();
}

/// Who calls finds the verdict in its registers. A put that is granted is on the console, behind what stood there, and a
/// send that is granted is in the list of sent packets, each with the bytes that its caller sees at its range.
pub fn law_answered()
    ensures answers { AnswersAreFound }
    ensures puts { PutsAreWritten }
    ensures sends { SendsAreSent }
{
    law_granted();
    law_moments();
}

/// After a granted allocation or recap a page has the words of its owner's registers: who presents the first may read it,
/// and who presents the second may write it too.
pub fn law_owners_words()
    ensures { WordsAreOwners }
{
    law_moments();
}

/// A console grows by granted puts of its own environment alone, and the list of sent packets by its granted sends and by
/// the replies of handlers of its own claims. Registers change by the record at boot, its own steps, starts and ends of
/// slices, transfers to it, answers to its calls, and its death.
pub fn law_origins()
    ensures console { ConsoleHasOrigin }
    ensures sent { SentHasOrigin }
    ensures registers { RegistersHaveOrigin }
{}
