//! Packets, as they are looked at.
ghost use Rattle.std.specs.Prelude.{◌≡◌, ◌+◌, true, if◌then◌else◌, nat_le, length};
ghost use Rattle.external_event.specs.Packet.{is_packet, packet_of};
ghost use Rattle.filter_core.specs.Filters.{is_width};
ghost use Rattle.filter_core.specs.Matching.{field};

use byteorder::{BigEndian, ByteOrder};
use external_event::{MOST_PACKET_SIZE, PacketBytes};
use std::marker::Model;

/// A view of the 1 to 1,514 bytes of a packet.
#[derive(Drop)]
pub struct Packet<'a> {
    bytes: &'a [u8],
}

impl<'a> Model for Packet<'a> {
    ghost use Rattle.std.specs.Prelude.{◌≡◌, ℕ, List, true};
    ghost use Rattle.external_event.specs.Packet.{is_packet};

    ghost Value = { List ℕ };

    ghost view = { λ packet. packet.bytes.now };

    ghost invariant = { λ packet. is_packet packet.bytes.now ≡ true };
}

impl<'a> Packet<'a> {
    /// The packet of these bytes, if they are 1 to 1,514.
    pub fn view(bytes: &'a [u8]) -> Option<Packet<'a>>
        ensures { result ≡ packet_of bytes.now }
    {
        if (1..=MOST_PACKET_SIZE).contains(&bytes.len()) {
            Some(Packet { bytes })
        } else {
            None
        }
    }

    /// The packet of an event.
    pub fn of(packet: &'a PacketBytes) -> Packet<'a>
        ensures { result ≡ packet.now }
    {
        Packet {
            bytes: packet.bytes(),
        }
    }

    /// Its bytes.
    pub fn bytes(&self) -> &'a [u8]
        ensures bytes { result.now ≡ self.now }
        ensures rule { is_packet self.now ≡ true }
    {
        self.bytes
    }

    /// The number in so many bytes from an offset on, the highest first, if they lie in the packet. The width is 1,
    /// 2 or 4.
    pub fn field(&self, offset: u16, width: u8) -> Option<u32>
        requires { is_width width ≡ true }
        ensures { result ≡ (if nat_le (offset + width) (length self.now) then Some (field offset width self.now) else None) }
    {
        let start = usize::from(offset);
        let bytes = self.bytes.get(start..start + usize::from(width))?;
        Some(match width {
            1 => u32::from(bytes[0]),
            2 => u32::from(BigEndian::read_u16(bytes)),
            _ => BigEndian::read_u32(bytes),
        })
    }
}
