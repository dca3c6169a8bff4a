//! The law of traces: a trace has a line for each step of an environment's feed, and no other.
#![tactic(auto)]

mod laws;

pub use laws::law_trace_is_feed;
