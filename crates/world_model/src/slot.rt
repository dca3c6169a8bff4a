//! Slots, runners and turns.
ghost use Rattle.std.specs.Prelude.{◌≡◌, IsNone, IsSome};
ghost use Rattle.world_model.specs.SlotCalls.{drop_refusal, take_refusal};

use crate::code::Code;
use crate::hold::Hold;

/// Whether a slice is an environment's own time, or time that it takes beyond it.
#[derive(Clone, Copy)]
pub enum Phase {
    /// The slice itself.
    Own,
    /// Behind the end of the slice, of which the environment was told.
    Grace,
}

/// Who runs, for how many ticks more, and in which phase.
#[derive(Clone, Copy)]
pub struct Runner {
    pub env: u8,
    pub left: u32,
    pub phase: Phase,
}

/// A turn: a slot, and the environment that runs in it.
#[derive(Clone, Copy)]
pub struct Turn {
    pub slot: u32,
    pub env: u8,
}

/// Why the slot can't be taken: `NoSlice` where there is no such slot, and `SlotTaken` where it isn't
/// empty.
pub fn take_refusal(slot: Option<Option<Hold>>) -> Option<Code>
    ensures why { result ≡ take_refusal slot }
    ensures there { IsNone result → IsSome slot }
{
    match slot {
        None => Some(Code::NoSlice),
        Some(None) => None,
        Some(Some(_)) => Some(Code::SlotTaken),
    }
}

/// Why the environment can't drop the slot: `NoSlice` where there is no such slot, and `NotHolder` where
/// it doesn't hold it.
pub fn drop_refusal(slot: Option<Option<Hold>>, env: u8) -> Option<Code>
    ensures why { result ≡ drop_refusal env slot }
    ensures there { IsNone result → IsSome slot }
{
    match slot {
        None => Some(Code::NoSlice),
        Some(Some(hold)) if hold.is_held_by(env) => None,
        Some(_) => Some(Code::NotHolder),
    }
}
