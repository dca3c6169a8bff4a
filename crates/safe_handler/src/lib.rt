//! Runs handlers: code that an environment gave to the kernel, over a packet and the page of the ring into which the
//! packet would go.
//!
//! The words of a handler were verified (`handler_rules`), so it ends in as many instructions as it has words
//! (`law_handlers_end`), without a clock. Its steps are the machine's own, and its loads and stores reach the packet and
//! the page alone.
#![tactic(auto)]

mod laws;
mod lent;
mod memory;
mod replies;
mod running;
mod step;
#[cfg(test)]
mod tests;

pub use laws::{law_handlers_end, law_runs_keep_limits};
pub use replies::{MOST_REPLIES, Replies};
pub use running::run_handler;
