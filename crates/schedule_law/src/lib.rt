//! The law of schedules: whatever a text says, its events are within their limits. So the premise that some laws have of
//! schedules is met by each that is read.
#![tactic(auto)]

mod laws;

pub use laws::law_schedules;
