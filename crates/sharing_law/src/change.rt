//! The causes of change.
ghost use Rattle.sharing_law.specs.Change.{AllocatedChange, AllocatedInTick, AllocatedZeros, GuaranteedChange, GuaranteedInTick, ItemChange, ZerosInTick};

use call_verdicts::{law_again, law_granted};
use revocation_book::law_takable;

/// An item that an environment absorbs leaves the bytes of its guaranteed pages, but for its own store to one, which may
/// be stored to; for the words of an exception of its own, of the start and the end of its slice, where it handles
/// starts, of another's transfer to it, of packets and signals of its own, of what it is asked for and of what is taken
/// from it, which go into the context page; and for its record at boot and its death.
#[tactic(auto, using(crate::proofs::Guaranteed::item_change))]
pub fn law_item_change()
    ensures { ItemChange }
{}

/// In a phase of a tick the bytes of a guaranteed page change by the first item that its environment is given, as this
/// item does it, and by nothing else.
#[tactic(auto, using(crate::proofs::Guaranteed::guaranteed_change))]
pub fn law_guaranteed_change()
    ensures { GuaranteedChange }
{
    law_granted();
    law_again();
}

/// So in a tick they stay, or they change by such items in its phases.
#[tactic(auto, using(crate::proofs::Guaranteed::guaranteed_in_tick))]
pub fn law_guaranteed_in_tick()
    ensures { GuaranteedInTick }
{
    law_granted();
    law_again();
}

/// In a phase of a tick the bytes of a page that stays allocated to an environment change only by a store through a live
/// writable binding; by a packet of the environment's own, for a claim whose ring the page is, which goes into a buffer
/// or which the claim's handler takes; or by the copy of a page that is taken from the environment, whose first backup
/// the page is.
#[tactic(auto, using(crate::proofs::Allocated::allocated_change))]
pub fn law_allocated_change()
    ensures { AllocatedChange }
{
    law_granted();
    law_again();
    law_takable();
}

/// A page that comes to be allocated in a phase is so by a call of its owner in it, was free before, and holds zeros
/// after.
#[tactic(auto, using(crate::proofs::Allocated::allocated_zeros))]
pub fn law_zeros()
    ensures { AllocatedZeros }
{
    law_granted();
    law_again();
    law_takable();
}

/// So a page that is allocated to an environment after a tick was so before, with the same bytes, or was stored to or
/// allocated so in a phase of the tick, or such a packet or such a copy came there.
#[tactic(auto, using(crate::proofs::Allocated::allocated_in_tick))]
pub fn law_allocated_in_tick()
    ensures { AllocatedInTick }
{
    law_granted();
    law_again();
    law_takable();
}

/// And one that wasn't so before was allocated so in a phase of the tick.
#[tactic(auto, using(crate::proofs::Allocated::zeros_in_tick))]
pub fn law_zeros_in_tick()
    ensures { ZerosInTick }
{
    law_granted();
    law_again();
    law_takable();
}
