//! The law of machines on a wire: each of them is a system of its own, so every law of systems is one of each machine.
#![tactic(auto)]

mod laws;

pub use laws::law_machines;
