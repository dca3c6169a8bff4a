//! A board at boot: its parts before any environment stands on it, and the pages that each environment is given then.
//! These are its context page, those of its program's body, and those of its stack, each the lowest page that is free
//! then, by rising VPN.
#![tactic(auto)]

mod boot;
mod loading;

pub use boot::{bare_memory, boot_journal};
pub use loading::load;
