//! Turns come: by the rules of the ledger alone, whoever holds a slot and owes nothing has its turn within a bounded
//! number of ticks.
#![tactic(auto)]

mod laws;

pub use laws::{law_clean_turns_come, law_turns_come};
