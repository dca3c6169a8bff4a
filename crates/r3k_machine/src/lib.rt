//! The processor with its TLB and coprocessor 0 over physical memory (`docs/MACHINE.md`).
#![tactic(auto)]

mod bus;
mod code;
mod entry;
mod laws;
mod machine;
mod run;
mod system;
mod translation;

pub use entry::Entry;
pub use laws::law_retired_steps;
pub use machine::{Machine, MachineEnd};
pub use run::Steps;
