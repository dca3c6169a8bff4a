//! What holds of the TLB after each tick of each run.
ghost use Rattle.coherence_law.specs.Coherence.{CourseIsCoherent};
ghost use Rattle.coherence_law.specs.Counts.{CountsRiseByFew};
ghost use Rattle.coherence_law.specs.Solo.{MachineIsSolo};

use call_verdicts::{law_again, law_granted};
use revocation_book::law_takable;
use sharing_law::{law_given_licence, law_kept, law_leads, law_versions};
use tlb_course::law_fills;
use tlb_laws::{law_finds, law_misses, law_two_refills};

/// After each tick of each run of an accepted image there are 64 rows, and Random is 8 to 63. Each row is emptied, or
/// holds a mapping that a living environment has, to a page that is there; and no two rows fit one process and user's
/// VPN, so the state in which a real R3000 shuts its TLB down never comes.
pub fn law_coherent()
    ensures { CourseIsCoherent }
{
    law_granted();
    law_again();
    law_takable();
    law_given_licence();
    law_kept();
    law_versions();
}

/// In a tick of a run the counts of one environment rise: by at most two refills, from guaranteed mappings and bindings
/// together, and by at most one forwarded miss. All others' stay. No count wraps.
pub fn law_counts()
    ensures { CountsRiseByFew }
{
    law_fills();
}

/// The step that the machine makes in user mode over its 64 rows and physical memory, with at most two refills, is the
/// step of the environment alone, which knows neither: in its registers, its outcome, and what each page that the
/// environment sees holds after it. So it is in each tick of each run of an accepted image, where memory and the rows
/// are those of the run, and for each environment of the image.
pub fn law_machine_is_solo()
    ensures { MachineIsSolo }
{
    law_granted();
    law_again();
    law_takable();
    law_given_licence();
    law_kept();
    law_versions();
    law_leads();
    law_finds();
    law_misses();
    law_two_refills();
}
