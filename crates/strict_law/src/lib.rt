//! The laws of the second table: the rows of every run keep it, and the strict audit finds what a run writes clean.
#![tactic(auto)]

mod laws;

pub use laws::{law_reports_are_strict, law_rows_are_strict};
