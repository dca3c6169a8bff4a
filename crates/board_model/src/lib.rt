//! What a board shows, and the world of the model that it is: the parts of a board that keep what belongs to
//! environments, the invariant of all parts together, what each part of a tick does to them, and the laws by
//! which that is what the model says.
#![tactic(auto)]

mod clock;
mod console;
mod laws;
mod lines;
mod output;
mod roster;
mod sent;

pub use clock::Clock;
pub use console::Console;
pub use laws::{
    law_again_answered, law_call, law_death, law_happen, law_idle, law_refusal, law_serving,
    law_step, law_stretch, law_taking, law_timer, law_turn,
};
pub use lines::Lines;
pub use output::Output;
pub use roster::{Environment, Roster};
pub use sent::Sent;
