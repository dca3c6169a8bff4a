//! What a step of the processor in user mode is: its registers and exceptions, and the definitions of the
//! instruction table (`docs/MACHINE.md`), what each instruction does to the registers and asks of memory.
//! `mips_step` has the code that makes a step.
#![tactic(auto)]

mod access_kind;
mod change;
mod exception;
mod reach;
mod registers;

pub use access_kind::{AccessKind, USER_END};
pub use change::Change;
pub use exception::{Exc, ExcCode, Outcome, cause_word};
pub use reach::{Access, Spot};
pub use registers::{Cpu, restart};
