//! The laws of two runs. An environment that is given the same in two runs is left the same, but for its excess. What
//! `twin_run` answers of a quiet environment names no difference, and the place that an answer names is the first at
//! which the feeds differ.
#![tactic(auto)]

mod laws;

pub use laws::{law_first_difference, law_twin_of_quiet, law_two_runs};
