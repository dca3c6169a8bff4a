//! The laws of the TLB in whole runs: after each tick of each run its rows are coherent, and a tick refills few;
//! and the machine's step over them is that of an environment alone (`docs/MACHINE.md`, "The TLB under the kernel").
#![tactic(auto)]

mod laws;

pub use laws::{law_coherent, law_counts, law_machine_is_solo};
