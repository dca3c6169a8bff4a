//! A board as a `FeedView`: what is read of it to tell the items of its next phase.
//!
//! Each reader says what the world has that the board shows. None of them changes the board: the runner's next step is
//! looked at without making it, and what a packet leaves of a ring page is made in a copy.
#![tactic(auto)]

mod acts;
mod arriving;
mod board_feed;
mod pages;
mod ring_page;
mod timing;

pub use board_feed::BoardFeed;
