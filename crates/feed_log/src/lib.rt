//! The log of an environment: the items that it was given and that nobody has read yet, in their order. Items that
//! stand in a row and are alike, as the steps of a stretch, are one entry. An item is shown as an `ItemView`, and items
//! that are shown alike are alike.
//!
//! This is the first of the crates that tell what one environment is given in a run (`docs/REPORT.md`, "Two runs
//! compared"):
//!
//! - `feed_log`: how an item is shown, the log, and `ToldRun`, by which a run is read of which the items are told
//! - `feed_telling`: what a phase of a tick gives, told before the phase by a `FeedView` of the world
//! - `feed_boot`: what the boot gives, told of the image
//! - `feed_board`: the kernel's board as a `FeedView`
//! - `feed_run`: a run of the kernel's board as a `ToldRun`; each phase is told, and then made
//! - `twin_run`: two `ToldRun`s compared
//!
//! The kernel tells nobody what it does: an item is told by reading the world before a phase, and it is proved that it is
//! the one that the model says. The crates that tell and compare know no board; `feed_board` and `feed_run` do.
#![tactic(auto)]

mod entry;
mod laws;
mod log;
mod told_run;
mod view;

pub use laws::law_views;
pub use log::FeedLog;
pub use told_run::ToldRun;
pub use view::{ItemKind, ItemView};
