//! The trace of an environment: a line for each of its steps in a run, from a tick on, with the instruction and what it
//! changed. Each line is proved to be its definition in `specs/Trace.antt`, and a trace to have the lines of all these
//! ticks, in their order (`docs/REPORT.md`, "The trace").
#![tactic(auto)]

mod fetch;
mod run;
mod step;

pub use run::trace;

/// The most ticks that one trace has.
pub const MOST_TRACED_TICKS: u32 = 262_144;
