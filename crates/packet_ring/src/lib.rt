//! Rings: pages into which packets are put for an environment that claims them.
//!
//! A ring is a page with two buffers, each of half a page, into which packets go in turn. A buffer's first word is the
//! length of the packet in it, whose bytes stand behind it; the environment gives the buffer back by writing 0 there
//! (`docs/KERNEL.md`, "What happens from outside").
#![tactic(auto)]

mod buffer;
mod delivery;

pub use buffer::Buffer;
pub use delivery::{deliver, is_full};
