//! What a quiet environment is given, what it owes, and what reports show of it.
ghost use Rattle.quiet_law.specs.Decided.{QuietIsDecided};
ghost use Rattle.quiet_law.specs.EachTick.{QuietHasSlices, QuietIsBeginning, QuietIsGivenOwn, QuietNeverDiffers, QuietRests};
ghost use Rattle.quiet_law.specs.Quiet.{QuietHasOwnPagesAlone, QuietIsAlone, QuietIsSame, QuietOwesAlone, QuietOwesSame};
ghost use Rattle.quiet_law.specs.Twin.{QuietIsShownAlike};
ghost use Rattle.quiet_law.specs.Writing.{QuietWritesAlike};

use call_verdicts::{law_again, law_granted};
use revocation_book::{law_richest, law_takable};
use run_model::{law_alone, law_slices, law_time};

/// A quiet environment accepts nobody, and has no page but its guaranteed ones. Where it has come to the end of its slice
/// n, it was given what it makes alone of its record in the image, the quantum and n, and owes what it makes alone. So in
/// two systems in which it is quiet and has one record, its version included, and one quantum, it was given the same at
/// the end of slice n, and owes the same, whatever the other programs, slots, packets, signals and revocations are.
pub fn law_quiet()
    ensures pages { QuietHasOwnPagesAlone }
    ensures feed { QuietIsAlone }
    ensures excess { QuietOwesAlone }
    ensures same_feed { QuietIsSame }
    ensures same_excess { QuietOwesSame }
{
    law_granted();
    law_again();
    law_richest();
    law_takable();
    law_time();
    law_alone();
    law_slices();
}

/// At each tick, and not only where its slices end, a quiet environment was given what it makes alone: its feed begins
/// what it makes alone of one slice more than have ended, and has all that it makes alone of those. So it is told
/// nothing by anybody: after its record at boot it is given steps, starts and ends of slices, answers and its death
/// alone.
pub fn law_quiet_each_tick()
    ensures begins { QuietIsBeginning }
    ensures slices { QuietHasSlices }
    ensures rests { QuietRests }
    ensures own { QuietIsGivenOwn }
{
    law_granted();
    law_again();
    law_richest();
    law_takable();
    law_time();
    law_alone();
}

/// In two systems in which an environment is quiet and has one record, its version included, and one quantum, at any
/// tick of each, one of its feeds begins the other; and it has written to its console, and sent, in one what it has in
/// the other, and then more.
pub fn law_quiet_never_differs()
    ensures feeds { QuietNeverDiffers }
    ensures written { QuietWritesAlike }
{
    law_quiet_each_tick();
    law_alone();
}

/// Whether an environment is quiet is decided tick by tick, by its calls and by the events that name it.
pub fn law_quiet_decided()
    ensures { QuietIsDecided }
{}

/// In two systems in which an environment is quiet and has one record, its version included, and one quantum, all lines
/// of a report that show it at the end of its slice n are the same, the line of its excess too.
pub fn law_quiet_text()
    ensures { QuietIsShownAlike }
{
    law_quiet();
    law_slices();
    law_alone();
}
