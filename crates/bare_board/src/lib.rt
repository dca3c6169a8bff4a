//! The machine without the kernel: a flat file runs in kernel mode from 0x80000100, until a BREAK there halts it.
#![tactic(auto)]

mod bare;
mod board;
mod ending;
mod fault;
mod loading;
mod text;

pub use bare::bare_text;
pub use ending::BareEnd;
pub use fault::BareFault;
