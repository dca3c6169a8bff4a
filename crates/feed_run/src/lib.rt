//! A run of a board of which the items of one environment are told: each tick is made phase by phase, and before each
//! phase is told what it gives; the plain ticks behind it are made in one stretch.
#![tactic(auto)]

mod phases;
mod reach;
mod run;
mod ticks;

pub use run::BoardRun;
