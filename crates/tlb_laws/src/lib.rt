//! The laws between the rows of the TLB and the mappings that they hold: where each access of a step finds its row, the
//! step over rows is the step over the mappings, and the first access that finds none ends it as a refill.
#![tactic(auto)]

mod laws;

pub use laws::{law_finds, law_misses, law_right_refill, law_runs, law_two_refills};
