//! The book of claims: which environment has put in for the packets that a filter matches, and into which page they go.
//!
//! The book is seen as the list of the claims that stand, by rising number. A packet goes to the lowest of those whose
//! filter matches it, into the buffer of its page whose turn it is. No filter is claimed that overlaps one of another
//! environment (`docs/FORMATS.md`, "Packet filters").
#![tactic(auto)]

mod branch;
mod branching;
mod claim;
mod claims;
mod laws;
mod laying;
mod leaf;
mod node;
mod row;
mod search;
mod steps;
mod tree;
mod walk;
mod withdrawal;

pub use claim::{Claim, ClaimNo};
pub use claims::Claims;
pub use laws::{law_alike, law_numbered};
pub use search::MOST_CLAIMS;
pub use steps::Steps;
