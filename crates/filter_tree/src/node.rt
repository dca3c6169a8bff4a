//! The nodes of the tree, as they are laid out.
use filter_core::Atom;

/// A node. A search goes from one to another, each time to one that was laid before it.
#[derive(Clone, Copy)]
pub(crate) enum Node {
    /// The search ends.
    End,
    /// An atom decides where the search goes on: at the one place if it matches, at the other if not.
    Test { atom: Atom, hit: u32, miss: u32 },
    /// The same, where the atom's field is one byte.
    Byte { atom: Atom, hit: u32, miss: u32 },
    /// The field of an atom is read; if it lies in the packet, the nodes behind decide by its bits under the mask.
    Read { atom: Atom, hit: u32, miss: u32 },
    /// What was read last is below a bound, or not.
    Below { bound: u32, low: u32, high: u32 },
    /// What was read last is a value, or not.
    Equal { value: u32, hit: u32, miss: u32 },
    /// A claim whose filter matches. No claim to which the search can still come is below the least number.
    Claim { id: u32, other: u32, least: u32 },
}

/// Where a search goes on.
#[derive(Clone, Copy)]
pub(crate) struct Onward {
    /// The place of a node.
    pub(crate) place: u32,
    /// No claim to which the search can come from there has a lower number.
    pub(crate) least: u32,
}
