//! How a run of the bare board ends.

/// How a run ended (`docs/BARE.md`, "What is written").
#[derive(Clone, Copy)]
pub enum BareEnd {
    /// At a BREAK in kernel mode.
    Halt,
    /// At the most ticks that it might have.
    Limit,
}
