//! An environment's frame: the registers that are kept of it while it doesn't run, the addresses of its
//! handlers, the mask of those whose yields and transfers it accepts, and its guaranteed mappings, by
//! which its VPNs lead to pages of physical memory.
//!
//! Mappings are given by rising VPN, and looked up by halving.
//!
//! An upcall is the kernel's: an environment goes on at a handler of its own, after an exception, where
//! its slice starts, where its slice ends, and where another calls it by a transfer. What it needs to go on
//! as if nothing had been stands then in the context page, which is the page at VPN 1, in an area
//! for each kind of upcall. Without a handler the context page stays as it is.
//!
//! Of what comes from outside an environment learns by the post words of its context page, and of the pages that were
//! taken from it by the records behind them.
#![tactic(auto)]

mod context;
mod env;
mod mapping;
mod post;
mod search;
mod transfer;
mod upcall;

pub use context::{Context, Handlers};
pub use env::Env;
pub use mapping::Mapping;
pub use post::PostWord;
pub use transfer::TransferKind;
