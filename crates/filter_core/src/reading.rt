//! Filters as they stand in memory.
ghost use Rattle.std.specs.Prelude.{◌≡◌, ◌+◌, ◌≤◌, length};
ghost use Rattle.std.specs.Option.{ok_or, option_map};
ghost use Rattle.filter_core.specs.Filters.{atom_size, filter_of};
ghost use Rattle.filter_core.specs.Reading.{good_atom, good_atoms};

use crate::atom::Atom;
use crate::filter::{Filter, MOST_ATOMS};
use crate::tables::are_consistent;
use arrayvec::ArrayVec;
use byte_numbers::word_at;

/// The bytes of an atom: three words.
pub const ATOM_SIZE: usize = 12;

/// Bytes that spell no filter.
#[derive(Clone, Copy)]
pub struct BadFilter;

/// Reads a filter of 1 to 16 atoms. Each is three words: the offset in the low half of the first and the width in
/// its high half; the mask; and the value. `docs/FORMATS.md`, "Packet filters", says what makes them a filter.
pub fn read_filter(bytes: &[u8]) -> Result<Filter, BadFilter>
    ensures { result ≡ ok_or (filter_of bytes.now) (record {}) }
{
    filter_of(bytes).ok_or(BadFilter)
}

/// The filter that bytes spell, if they spell one.
#[tactic(auto, unfolding(crate::specs::Filters::filter_of))]
fn filter_of(bytes: &[u8]) -> Option<Filter>
    ensures { result ≡ filter_of bytes.now }
{
    let atoms = good_atoms(bytes)?;
    if are_consistent(&atoms) {
        Some(Filter::of(atoms))
    } else {
        None
    }
}

/// The 1 to 16 atoms that bytes spell, if each of them may stand in a filter.
fn good_atoms(bytes: &[u8]) -> Option<ArrayVec<Atom, MOST_ATOMS>>
    ensures { option_map (λ atoms. atoms.items) result ≡ good_atoms bytes.now }
{
    if bytes.len() % ATOM_SIZE != 0 {
        return None;
    }
    let count = bytes.len() / ATOM_SIZE;
    if !(1..=MOST_ATOMS).contains(&count) {
        return None;
    }
    let mut atoms = ArrayVec::new();
    for i in 0..count {
        atoms.push(good_atom(bytes, i * ATOM_SIZE)?);
    }
    Some(atoms)
}

/// The atom at a place, if it may stand in a filter.
fn good_atom(bytes: &[u8], place: usize) -> Option<Atom>
    requires { place + atom_size ≤ length bytes.now }
    ensures { result ≡ good_atom bytes.now place }
{
    let shape = word_at(bytes, place);
    let width = u8::try_from(shape >> 16).ok()?;
    let atom = Atom {
        offset: (shape & 0xffff) as u16,
        width,
        mask: word_at(bytes, place + 4),
        value: word_at(bytes, place + 8),
    };
    if atom.is_good() { Some(atom) } else { None }
}
