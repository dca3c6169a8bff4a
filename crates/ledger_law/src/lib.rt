//! The law of the ledger: the rows of every run, for every image, schedule and number of ticks, keep the rules of
//! slices and excess, and tell who runs.
#![tactic(auto)]

mod laws;

pub use laws::{law_ledger, law_ledger_end, law_ledger_tells, law_runs_are_clean};
