//! Whole pages.
ghost use Rattle.sharing_law.specs.Whole.{CopiesAreWhole, GuaranteedAreWhole, PagesAreWhole};

use crate::right::law_given_licence;
use call_verdicts::{law_again, law_granted};
use revocation_book::law_takable;
use safe_handler::law_runs_keep_limits;

/// Where what happens from outside is within its limits, each allocated page has its 4,096 bytes, at each moment.
#[tactic(auto, using(crate::proofs::Sizes::pages_are_whole))]
pub fn law_whole()
    ensures { PagesAreWhole }
{
    law_granted();
    law_again();
    law_takable();
    law_given_licence();
    law_runs_keep_limits();
}

/// So a backup that gets a copy of a page that is taken has just the bytes of this page.
pub fn law_whole_copies()
    ensures { CopiesAreWhole }
{
    law_granted();
    law_again();
    law_takable();
    law_given_licence();
    law_runs_keep_limits();
}

/// Each guaranteed page has its 4,096 bytes, at each moment and whatever happens from outside.
pub fn law_guaranteed_whole()
    ensures { GuaranteedAreWhole }
{
    law_given_licence();
}
