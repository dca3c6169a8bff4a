//! The text of a report: what is shown of a world after a run, line by line. Each line is proved to be its
//! definition in `specs/Report.antt`, and a report to be the lines in their order (`docs/REPORT.md`, "The report").
//! Whatever is a `WorldView` shows a world, as a board does.
//!
//! The lines are pushed onto one list of bytes. Where memory runs out in the midst of it, the list
//! ends somewhere within the text and is given up, so no private push says what it holds then.
#![tactic(auto)]

mod binding;
mod environment;
mod ledger;
mod page;
mod processor;
mod room;
mod sending;
mod sums;
mod text;
mod words;

pub use environment::env_lines;
pub use processor::shown_cpu;
pub use text::{push_end_line, push_summary, report};
