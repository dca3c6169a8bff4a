//! Handlers: code that an environment gives to the kernel, for the packets of one of its claims. The kernel runs it over
//! a packet and the page of the ring into which the packet would go.
//!
//! The words are read once, and the first that is bad is found: one that may not stand in a handler, and a branch that
//! may go back. What a handler makes of a packet is defined here, over the machine's own instructions; `safe_handler`
//! runs it.
#![tactic(auto)]

mod handler;
mod instructions;
mod laws;
mod outcome;
mod verification;

pub use handler::{Handler, MOST_WORDS, WORD_SIZE, read_handler, verify};
pub use laws::law_first_bad;
pub use outcome::{HandlerEnd, HandlerFault};
