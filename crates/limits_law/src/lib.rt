//! The laws of limits: packets, what happens on a wire, what is given in feeds and the cursor are within limits.
#![tactic(auto)]

mod laws;

pub use laws::{law_cursor, law_items_are_fit, law_packets, law_wired_packets};
