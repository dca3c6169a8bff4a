//! The board: the machine, the environments on it and the kernel's books, and the parts of a tick.
//! What a board shows is a world of the model, and each part of a tick is that part of the model's.
//!
//! The methods in `phases`, `serving`, `boot`, `readers` and `views` are for the layers above and for verdicts, and speak of that
//! world; those in the other files change the board's parts, each by one equation.
#![tactic(auto)]

mod board;
mod boot;
mod calls;
mod claim_deeds;
mod deadlines;
mod death;
mod events;
mod exception;
mod line_deeds;
mod machine_step;
mod own_deeds;
mod page_deeds;
mod phases;
mod readers;
mod serving;
mod slot_deeds;
mod stretch;
mod timer;
mod turn;
mod views;

pub use board::Board;
pub use phases::{CALL_ROWS, SERVE_ROWS, STEP_ROWS, TURN_ROWS};
pub use stretch::Stretch;
