//! What an environment is given in a phase of a tick, told by readers of the world before the phase: of each telling it
//! is proved that the log goes on by the phase's items of that environment, as the model says them.
#![tactic(auto)]

mod act;
mod deeds;
mod events;
mod items;
mod losses;
mod step;
mod taking;
mod timer;
mod transfer;
mod view;

pub use act::{NextAct, Stored};
pub use events::tell_event;
pub use step::tell_step;
pub use taking::tell_taking;
pub use timer::{law_turn, tell_timer, tell_turn};
pub use view::{Arrival, FeedView};
