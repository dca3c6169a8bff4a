//! Slots by right: a slot stays its owner's until the owner drops it or dies, it changes by its holder, its owner, their
//! deaths, or whoever takes it while it is empty, and its turn begins with a full quantum.
#![tactic(auto)]

mod laws;

pub use laws::{law_owned_slot_stays, law_slot_changes, law_turn_leaves};
