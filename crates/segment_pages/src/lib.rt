//! The pages that a program's segments fill: which there are, which of them may be stored to, and what bytes
//! each has.
//!
//! A segment is bytes from an address on, and a page has a part of one or more of them. What no segment's file
//! gives is zero. `docs/KERNEL.md`, "Boot", has the rule.
#![tactic(auto)]

mod bytes;
mod law;
mod vpns;

pub use bytes::fill_page;
pub use law::law_smallest;
pub use vpns::{count_pages, is_writable, next_page};
