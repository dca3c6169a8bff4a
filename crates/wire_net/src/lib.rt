//! Machines on a wire: boards whose environments send packets to those of the others. Each runs by the contracts of
//! `event`, `tick`, `make_room` and `stretch` alone, and shows the world that `wire_model` gives it (`docs/KERNEL.md`,
//! "Machines on a wire").
#![tactic(auto)]

mod delivery;
mod net;
mod sending;
mod station;

pub use net::wire;
