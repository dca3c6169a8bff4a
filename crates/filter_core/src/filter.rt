//! Filters.
ghost use Rattle.std.specs.Prelude.{◌≡◌, true};
ghost use Rattle.filter_core.specs.Filters.{is_filter};
ghost use Rattle.filter_core.specs.Matching.{matches};

use crate::atom::Atom;
use crate::packet::Packet;
use arrayvec::ArrayVec;
use std::marker::Model;

/// The atoms of the longest filter.
pub const MOST_ATOMS: usize = 16;

/// A filter: one to sixteen atoms, no two of which ask for different values of one bit. It matches a packet that
/// each of them matches.
#[derive(Drop)]
pub struct Filter {
    atoms: ArrayVec<Atom, MOST_ATOMS>,
}

impl Model for Filter {
    ghost use Rattle.std.specs.Prelude.{◌≡◌, List, true};
    ghost use Rattle.filter_core.specs.declared.atom.Atom.{Atom as FilterAtom};
    ghost use Rattle.filter_core.specs.Filters.{is_filter};

    ghost Value = { List FilterAtom };

    ghost view = { λ filter. filter.atoms.items };

    ghost invariant = { λ filter. is_filter filter.atoms.items ≡ true };
}

impl Filter {
    /// The filter of these atoms, which are one.
    pub(crate) fn of(atoms: ArrayVec<Atom, MOST_ATOMS>) -> Filter
        requires { is_filter atoms.items ≡ true }
        ensures { result ≡ atoms.items }
    {
        Filter { atoms }
    }

    /// The same filter once more.
    pub fn copy(&self) -> Filter
        ensures { result ≡ self.now }
    {
        let mut atoms = ArrayVec::new();
        atoms.try_extend_from_slice(self.atoms()).unwrap();
        Filter { atoms }
    }

    /// Its atoms, in their order.
    pub fn atoms(&self) -> &[Atom]
        ensures atoms { result.now ≡ self.now }
        ensures rule { is_filter self.now ≡ true }
    {
        &self.atoms
    }

    /// Whether it matches a packet.
    pub fn matches(&self, packet: &Packet<'_>) -> bool
        ensures { result ≡ matches self.now packet.now }
    {
        for atom in self.atoms() {
            if !atom.matches(packet) {
                return false;
            }
        }
        true
    }
}
