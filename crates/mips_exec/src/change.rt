//! What an instruction does, as a value.
use crate::exception::Exc;

/// What an instruction does (`docs/MACHINE.md`, "Effect").
#[derive(Clone, Copy)]
pub enum Change {
    /// The register of this number takes the value, and the program goes on.
    Puts(u8, u32),
    /// HI and LO take the values, and it goes on.
    PutsHiLo(u32, u32),
    /// It goes on.
    Passes,
    /// It goes on to the delay slot, and from there to the target.
    Jumps(u32),
    /// The same, and the register of this number takes the address after the delay slot.
    JumpsAndLinks(u8, u32),
    /// The kernel is called.
    Calls,
    /// An exception stops the program.
    Raises(Exc),
}
