//! Whole runs of a board, which are those of the model. `Course` is a run: after `run` its board shows the world of the model
//! after so many ticks, and so after `run_long`, which gives up where the ledger grows too long; after `tick` that of one
//! tick more, after `glide` that of some plain ticks more; `begin` and `finish` make a tick in its halves, for who looks at
//! the board in between. `Agenda` has the events that are to come. `event` is what an event does in the model, `tick` its
//! step of the world.
#![tactic(auto)]

mod agenda;
mod booting;
mod course;
mod halves;
mod laws;
mod running;

pub use agenda::Agenda;
pub use booting::boot;
pub use course::{Course, MOST_LONG_ROWS, end_of_run};
pub use laws::{law_agenda, law_halves, law_idle};
pub use running::{TICK_ROWS, event, happen_all, make_room, tick};
