//! What atoms ask of the bytes of packets, in tables with an entry for each byte.
ghost use Rattle.std.specs.Prelude.{◌≡◌, ◌<◌, ℕ, true, slice_index, bit_or};
ghost use Rattle.std.specs.List.{list_all};
ghost use Rattle.std.specs.Int.{byte_at};
ghost use Rattle.external_event.specs.Limits.{most_packet_size};
ghost use Rattle.filter_core.specs.Asking.{agree, asked, byte_for, mask_at, value_at};
ghost use Rattle.filter_core.specs.Filters.{is_atom};
ghost use Rattle.filter_core.specs.Holding.{IsTable, are_held, is_held};

use crate::atom::Atom;
use external_event::MOST_PACKET_SIZE;

/// An entry for each byte of the longest packet.
pub(crate) type Table = [u8; MOST_PACKET_SIZE];

/// The masks and the values of all atoms of a list, by the bytes of a packet.
#[derive(Drop)]
pub(crate) struct Tables {
    pub(crate) masks: Table,
    pub(crate) values: Table,
}

/// Lays out the atoms of a list.
pub(crate) fn tables_of(atoms: &[Atom]) -> Tables
    requires { list_all is_atom atoms.now ≡ true }
    ensures masks { IsTable mask_at atoms.now result.masks }
    ensures values { IsTable value_at atoms.now result.values }
{
    let mut tables = Tables {
        masks: [0; MOST_PACKET_SIZE],
        values: [0; MOST_PACKET_SIZE],
    };
    for atom in atoms {
        add_bytes(&mut tables.masks, atom, atom.mask);
        add_bytes(&mut tables.values, atom, atom.value);
    }
    tables
}

/// Whether no two atoms of a list ask for different values of one bit.
pub(crate) fn are_consistent(atoms: &[Atom]) -> bool
    requires { list_all is_atom atoms.now ≡ true }
    ensures { result ≡ agree atoms.now atoms.now }
{
    tables_of(atoms).agree_with_all(atoms)
}

/// Adds the bits of a number, the mask or the value of an atom, to the entries of its field's bytes.
fn add_bytes(table: &mut Table, atom: &Atom, number: u32)
    requires { is_atom atom.now ≡ true }
    ensures { (p : ℕ) → p < most_packet_size → slice_index table.new p ≡ bit_or (slice_index table.old p) (byte_for atom.now number p) }
{
    let offset = usize::from(atom.offset);
    let width = usize::from(atom.width);
    for i in 0..width {
        table[offset + i] |= byte_of(number, width - 1 - i);
    }
}

/// The byte of a number that so many lower ones follow, at most 3.
fn byte_of(number: u32, lower: usize) -> u8
    requires { lower < 4 }
    ensures { result ≡ byte_at lower number }
{
    number.to_le_bytes()[lower]
}

impl Tables {
    /// Whether an atom asks no bit for another value than those that are laid out.
    fn agree_with(&self, atom: &Atom) -> bool
        requires { is_atom atom.now ≡ true }
        ensures { result ≡ is_held self.now.masks self.now.values atom.now }
    {
        let offset = usize::from(atom.offset);
        let width = usize::from(atom.width);
        for i in 0..width {
            let mask = byte_of(atom.mask, width - 1 - i);
            let value = byte_of(atom.value, width - 1 - i);
            if self.values[offset + i] & mask != value & self.masks[offset + i] {
                return false;
            }
        }
        true
    }

    /// Whether no atom of a list asks a bit for another value than those that are laid out.
    pub(crate) fn agree_with_all(&self, atoms: &[Atom]) -> bool
        requires { list_all is_atom atoms.now ≡ true }
        ensures { result ≡ are_held self.now.masks self.now.values atoms.now }
    {
        for atom in atoms {
            if !self.agree_with(atom) {
                return false;
            }
        }
        true
    }
}

/// Adds the values of the atoms of a list to a table.
pub(crate) fn add_values(table: &mut Table, atoms: &[Atom])
    requires { list_all is_atom atoms.now ≡ true }
    ensures { (p : ℕ) → p < most_packet_size → slice_index table.new p ≡ bit_or (slice_index table.old p) (asked (value_at p) atoms.now) }
{
    for atom in atoms {
        add_bytes(table, atom, atom.value);
    }
}
