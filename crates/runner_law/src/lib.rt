//! Who ran, by the ledger: the rows of a run say who makes the step of each tick, and so whoever holds a slot makes one
//! within a bounded number of ticks.
#![tactic(auto)]

mod laws;

pub use laws::{
    law_runners_are_told, law_same_rows_same_steps, law_states_are_told, law_steps_are_told,
    law_turns_come_in_runs,
};
