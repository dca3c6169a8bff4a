//! The right to a binding, and by what licence items are given.
ghost use Rattle.run_model.specs.Licensed.{FeedIsLicensed, GivenIsLicensed};
ghost use Rattle.run_model.specs.Live.{StoresAreLive};
ghost use Rattle.sharing_law.specs.Right.{EachIsLive, EachLeftIsLive};

use call_verdicts::{law_again, law_granted};
use revocation_book::law_takable;
use run_model::law_licence_by_stores;

/// Every binding that the book lists is live: its environment bound it, and owned the page ever since or presented a
/// word that has given the right ever since.
#[tactic(auto, using(crate::proofs::Live::each_is_live))]
pub fn law_live()
    ensures { EachIsLive }
{
    law_granted();
    law_again();
    law_takable();
}

/// In each step a store to a page that isn't guaranteed goes through a live writable binding.
pub fn law_stores()
    ensures { StoresAreLive }
{
    law_granted();
    law_again();
    law_takable();
}

/// Every item that an environment is given in a phase of a tick has its licence in the world of that phase.
pub fn law_given_licence()
    ensures { GivenIsLicensed }
{
    law_stores();
    law_licence_by_stores();
}

/// Every item of every feed has its licence where it is given: at boot, or in its phase of its tick.
pub fn law_feed_licence()
    ensures { FeedIsLicensed }
{
    law_stores();
    law_licence_by_stores();
}

/// Bytes that are left to an environment in a phase of a tick are stored there by another, which has a live writable
/// binding of the page; or the page is another's, and they are all its bytes once a packet of its owner's came there, or
/// those of a page that is taken from its owner, which is copied there.
pub fn law_left()
    ensures { EachLeftIsLive }
{
    law_granted();
    law_again();
    law_takable();
    law_given_licence();
}
