//! Whether two filters overlap.
ghost use Rattle.std.specs.Prelude.{◌≡◌, ◌↔◌, true, List, IsTrue};
ghost use Rattle.std.specs.Bool.{OnFalse, OnTrue};
ghost use Rattle.filter_core.specs.declared.atom.Atom.{Atom as FilterAtom};
ghost use Rattle.filter_core.specs.Asking.{agree};
ghost use Rattle.filter_core.specs.Filters.{is_filter};
ghost use Rattle.filter_core.specs.Matching.{IsCommon, Overlap};

use crate::filter::Filter;
use crate::tables::{Tables, add_values, tables_of};
use external_event::MOST_PACKET_SIZE;
use std::marker::Model;

/// A filter, laid out by the bytes of a packet: others are held against it byte by byte of what they ask for.
#[derive(Drop)]
pub struct Layout<'a> {
    filter: &'a Filter,
    tables: Tables,
}

impl<'a> Model for Layout<'a> {
    ghost use Rattle.std.specs.Prelude.{List};
    ghost use Rattle.filter_core.specs.declared.atom.Atom.{Atom as FilterAtom};
    ghost use Rattle.filter_core.specs.Holding.{IsLaidOut};

    ghost Value = { List FilterAtom };

    ghost view = { λ l. l.filter.now };

    ghost invariant = { λ l. IsLaidOut l.filter.now l.tables.masks l.tables.values };
}

impl<'a> Layout<'a> {
    /// Lays out a filter.
    pub fn of(filter: &'a Filter) -> Layout<'a>
        ensures { result ≡ filter.now }
    {
        Layout {
            filter,
            tables: tables_of(filter.atoms()),
        }
    }

    /// Whether some packet is matched by the filter and by another.
    pub fn overlaps(&self, other: &Filter) -> bool
        ensures exact { IsTrue result ↔ Overlap self.now other.now }
        ensures value { result ≡ agree self.now other.now }
    {
        self.tables.agree_with_all(other.atoms())
    }
}

/// Whether some packet is matched by both filters.
pub fn overlaps(left: &Filter, right: &Filter) -> bool
    ensures exact { IsTrue result ↔ Overlap left.now right.now }
    ensures value { result ≡ agree left.now right.now }
{
    Layout::of(left).overlaps(right)
}

/// Whether some packet is matched by both filters; then such a packet is written, which has the longest size, the
/// bits for which they ask, and no others. If not, what is written stays.
pub fn common_packet(left: &Filter, right: &Filter, out: &mut [u8; MOST_PACKET_SIZE]) -> bool
    ensures exact { IsTrue result ↔ Overlap left.now right.now }
    ensures packet { OnTrue result (IsCommon left.now right.now out.new) }
    ensures none { OnFalse result (out.new ≡ out.old) }
{
    if !overlaps(left, right) {
        return false;
    }
    *out = [0; MOST_PACKET_SIZE];
    add_values(out, left.atoms());
    add_values(out, right.atoms());
    true
}

/// Law: filters overlap exactly if they ask no bit of a packet for different values.
pub fn law_agree()
    ensures { (f g : List FilterAtom) → is_filter f ≡ true → is_filter g ≡ true → (agree f g ≡ true) ↔ Overlap f g }
{}
