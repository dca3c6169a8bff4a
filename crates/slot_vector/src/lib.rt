//! The vector of slots: who runs in each slice of the processor, and whose turn is next.
//!
//! The vector is seen as its slots with owner and holder, the quantum, the cursor, the runner with the
//! ticks that it has left, and the excess of each environment. A turn goes to the next slot after the
//! cursor, all around, whose holder owes nothing; those of who owes are forfeited on the way. The timer
//! counts the slice down, and stops the runner at its end, or gives it time of grace, which is excess.
#![tactic(auto)]

mod excess;
mod held;
mod laws;
mod search;
mod slots;
mod turn;

pub use laws::law_turns;
pub use slots::Slots;
pub use turn::NextTurn;
pub use world_model::Timer;
