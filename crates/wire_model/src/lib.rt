//! The model of machines on a wire: what each of them sends, and what happens in each, by recursion on ticks; and that
//! a machine's world rests on what is known below its tick. The definitions stand in `specs/` (`docs/MODEL.md`, "A
//! wire").
#![tactic(auto)]

mod laws;
mod limits;

pub use laws::{law_reads_below, law_settled, law_tick};
pub use limits::{
    ALL_OTHERS, MOST_DELAY, MOST_MACHINES, MOST_WIRE_TICKS, constants_are_the_wires_limits,
};
