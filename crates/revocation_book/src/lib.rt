//! The book of revocations: how many pages each environment is asked for and until when, which of its pages it has
//! loaded as backups, and what is taken from it once its deadline has come.
//!
//! A backup is a page of the environment's own that gets a copy of a page that is taken. The first page that is taken
//! goes to the backup that was loaded first, and so on (`docs/KERNEL.md`, "Revocation").
#![tactic(auto)]

mod backups;
mod deadlines;
mod laws;
mod pending;
mod revocation;
mod revocations;
mod takings;

pub use backups::MOST_BACKUPS;
pub use laws::{law_few_takings, law_richest, law_takable};
pub use revocation::{LoadNo, Pending, Taking};
pub use revocations::Revocations;
pub use takings::Takings;
