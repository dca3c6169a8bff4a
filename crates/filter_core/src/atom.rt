//! Atoms of filters.
ghost use Rattle.std.specs.Prelude.{◌≡◌, ◌^◌, nat_lt, true};
ghost use Rattle.filter_core.specs.Filters.{is_atom, is_width};
ghost use Rattle.filter_core.specs.Matching.{atom_matches};

use crate::packet::Packet;
use external_event::MOST_PACKET_SIZE;

/// What a filter asks of one field of a packet: `width` bytes from `offset` on, the highest first. The field's bits
/// under the mask have to be the value. A mask of 0 asks only that the field lies in the packet.
#[derive(Clone, Copy, Default)]
pub struct Atom {
    /// The place of the field's first byte in the packet.
    pub offset: u16,
    /// The bytes of the field: 1, 2 or 4.
    pub width: u8,
    /// The bits of the field for which it asks.
    pub mask: u32,
    /// The value that they have to have, within the mask.
    pub value: u32,
}

impl Atom {
    /// Whether it may stand in a filter: its width is 1, 2 or 4, its field ends at or below byte 1,514, no bit of
    /// the mask is outside the field, and no bit of the value outside the mask.
    pub fn is_good(&self) -> bool
        ensures { result ≡ is_atom self.now }
    {
        matches!(self.width, 1 | 2 | 4)
            && usize::from(self.offset) + usize::from(self.width) <= MOST_PACKET_SIZE
            && fits(self.mask, self.width)
            && self.value & self.mask == self.value
    }

    /// Whether it matches a packet.
    pub fn matches(&self, packet: &Packet<'_>) -> bool
        requires { is_atom self.now ≡ true }
        ensures { result ≡ atom_matches self.now packet.now }
    {
        match packet.field(self.offset, self.width) {
            Some(field) => field & self.mask == self.value,
            None => false,
        }
    }
}

/// Whether a mask has no bit outside a field of this width.
#[tactic(auto, using(crate::proofs::Asks::one_two_four))]
fn fits(mask: u32, width: u8) -> bool
    requires { is_width width ≡ true }
    ensures { result ≡ nat_lt mask (256 ^ width) }
{
    match width {
        1 => mask < 0x100,
        2 => mask < 0x1_0000,
        _ => true,
    }
}
