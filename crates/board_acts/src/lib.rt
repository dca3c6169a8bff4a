//! What events, calls and the timer do to single parts of a board: its slots with their ledger, physical memory, the
//! claims, what is kept of environments, and the registers.
//!
//! A function takes the parts that it writes. Its clauses say what becomes of them, alone or in every board that has
//! them. So this crate knows no board, and asks for nothing that holds of all parts together.
#![tactic(auto)]

mod answers;
mod backup;
mod delivery;
mod emptying;
mod misses;
mod output;
mod reading;
mod slot_rows;
mod transfer;

pub use answers::answer;
pub use backup::copy_to_backup;
pub use delivery::deliver;
pub use emptying::{drop_bound, drop_dead};
pub use misses::{answer_miss, refill};
pub use output::{put, send};
pub use reading::{is_owned, page_behind, plain_most, space_in, unless_empty};
pub use slot_rows::{push_slot, release_slots, settle};
pub use transfer::{GrantedTransfer, enter, hand_on};
