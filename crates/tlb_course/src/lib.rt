//! The course of the TLB in a run, by the worlds of the model: what each phase of a tick makes of its rows, of Random and
//! of the fills, and what a whole run does. The definitions stand in `specs/` (`docs/MACHINE.md`, "The TLB under the
//! kernel"). `law_fills` says that a tick refills at most two rows and forwards at most one miss, all of one environment.
#![tactic(auto)]

mod laws;

pub use laws::{law_fills, law_further};
