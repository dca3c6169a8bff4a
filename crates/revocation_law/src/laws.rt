//! What an environment is told before a page is taken from it, and what the answer 22 brings.
ghost use Rattle.revocation_law.specs.Again.{AgainHelps, AgainIsAwaited};
ghost use Rattle.revocation_law.specs.Pressure.{PressureIsSlow};
ghost use Rattle.revocation_law.specs.Request.{PendingIsTold, TakenWasAsked};

use run_model::{law_moments, law_time};

/// What is pending for an environment it was told: the request that its feed tells last has the same deadline, and no
/// fewer pages.
pub fn law_pending()
    ensures { PendingIsTold }
{}

/// No page is taken from an environment that wasn't asked for it, in another tick than that of the deadline that it was
/// told last, or beyond the number that it was told.
pub fn law_taken()
    ensures { TakenWasAsked }
{
    law_time();
}

/// From an environment that no revocation of the schedule names, others' calls take a page in two quanta at most, though
/// they may take all that it has.
pub fn law_pressure()
    ensures { PressureIsSlow }
{
    law_time();
    law_taken();
}

/// The answer 22 helps. By the end of each later tick, the environment that it names has freed a page, has had one taken,
/// is dead, or had none to give at its deadline; or its deadline is still to come. If no revocation of the schedule names
/// that environment, this is two quanta later at the latest.
pub fn law_again_helps()
    ensures awaited { AgainIsAwaited }
    ensures helps { AgainHelps }
{
    law_moments();
    law_time();
}
