//! Schedules: a text of the events that come from outside while the machine runs.
//!
//! Each line is an event with its time. A text that breaks a rule is refused with the first rule that it breaks, in
//! the order of `docs/FORMATS.md`, "Schedule", and with its line.
#![tactic(auto)]

mod digits;
mod fault;
mod laws;
mod packet_line;
mod pieces;
mod ranges;
mod reading;
mod statement;

pub use fault::ScheduleWhy;
pub use laws::law_in_order;
pub use reading::{MOST_EVENTS, read_schedule};
