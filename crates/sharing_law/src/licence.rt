//! What environments are given, and how pages change.
ghost use Rattle.run_model.specs.Licensed.{FeedIsLicensed};
ghost use Rattle.sharing_law.specs.Change.{AllocatedChange, AllocatedZeros, GuaranteedChange};
ghost use Rattle.sharing_law.specs.Right.{EachIsLive, EachLeftIsLive};

use crate::change::{law_allocated_change, law_guaranteed_change, law_zeros};
use crate::right::{law_feed_licence, law_left, law_live};

/// Whatever reaches an environment has its licence, for every image and schedule, number of ticks and environment.
///
/// Each item of its feed is licensed where it is given: at boot, or in its phase of its tick. Bytes that are left to it
/// are stored there by another's live writable binding, or by a delivery to another, whose page it is. Each binding that
/// the book lists is live. The bytes of a guaranteed page change by an item of its environment alone, and those of a page
/// that stays its owner's by a store through a live writable binding, or by a delivery to its owner. A page that comes to
/// be an environment's is allocated by it, and begins with zeros.
pub fn law_licence()
    ensures feed { FeedIsLicensed }
    ensures left { EachLeftIsLive }
    ensures live { EachIsLive }
    ensures guaranteed { GuaranteedChange }
    ensures allocated { AllocatedChange }
    ensures zeros { AllocatedZeros }
{
    law_feed_licence();
    law_left();
    law_live();
    law_guaranteed_change();
    law_allocated_change();
    law_zeros();
}
