//! The law of the report: the bytes that a run writes are read as the run's ledger, and so the auditor finds them clean, for
//! every image, schedule and limit of ticks within their limits.
#![tactic(auto)]

mod laws;

pub use laws::{law_reports_are_clean, law_reports_are_read};
