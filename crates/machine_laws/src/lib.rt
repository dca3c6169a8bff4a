//! The laws of user mode: what a user's step can't change of the machine and can't see of memory, and that a user comes
//! into the kernel at the two vectors alone (`docs/BARE.md`).
#![tactic(auto)]

mod laws;

pub use laws::{law_confined, law_entered, law_seen, law_users_ticks};
