//! Packet filters: which packets a filter matches, and whether two filters can match one packet.
//!
//! A filter is a list of atoms, each of which asks for the value of some bits of a field. A packet is a list of
//! bytes. Two filters overlap if some packet is matched by both, which is decided by the bytes that they ask for:
//! the one is laid out by the bytes of a packet, and the other is held against it. `docs/FORMATS.md`, "Packet
//! filters", has the rules.
#![tactic(auto)]

mod atom;
mod filter;
mod layout;
mod packet;
mod reading;
mod tables;
#[cfg(test)]
mod tests;

pub use atom::Atom;
pub use filter::{Filter, MOST_ATOMS};
pub use layout::{Layout, common_packet, law_agree, overlaps};
pub use packet::Packet;
pub use reading::{ATOM_SIZE, BadFilter, read_filter};
