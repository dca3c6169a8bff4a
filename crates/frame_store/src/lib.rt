//! Physical memory: a number of pages of `PAGE_SIZE` bytes, lent of one vector of all bytes.
//!
//! `Frames` is seen as the list of its pages. Each call that writes says what becomes of one page,
//! and that all others stay as they are. Words stand in a page with their lowest byte first.
#![tactic(auto)]

mod frames;

pub use frames::Frames;
