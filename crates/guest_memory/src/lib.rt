//! What an environment's accesses reach: its guaranteed mappings and its bindings over the pages of physical memory.
//!
//! A VPN leads to the page of its guaranteed mapping, else of its binding, where physical memory has that
//! page; else the access is a miss. `locate` finds the page of an access, or what the access raises, `guest_range` the
//! bytes that a kernel call names, and `guest_page` the page at a VPN. `peek` says how the next step of an environment ends and what it would store,
//! without making it.
#![tactic(auto)]

mod next_step;
mod peek_bus;
mod place;
mod range;
mod space;

pub use next_step::peek;
pub use peek_bus::Written;
pub use place::locate;
pub use range::{guest_page, guest_range};
pub use space::Space;
