//! Lives and causes of death.
use mips_exec::ExcCode;

/// Why an environment died (`docs/KERNEL.md`).
#[derive(Clone, Copy)]
pub enum Cause {
    /// It called exit, with this code.
    Exit(u32),
    /// It raised an exception that it doesn't handle.
    Trapped(ExcCode),
    /// Its excess passed the limit.
    Excess,
}

/// Whether an environment lives.
#[derive(Clone, Copy)]
pub enum Life {
    Live,
    Dead(Cause),
}
