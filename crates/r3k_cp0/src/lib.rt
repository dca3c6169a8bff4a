//! The registers of coprocessor 0: the mode of the processor, what its last exception was, and what the TLB is read and
//! written by (`docs/MACHINE.md`, "Coprocessor 0").
#![tactic(auto)]

mod fields;
mod random;
mod registers;
mod vector;

pub use random::Random;
pub use registers::Cp0;
pub use vector::exception_vector;
