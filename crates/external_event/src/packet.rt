//! The bytes of a packet.
ghost use Rattle.std.specs.Prelude.{◌≡◌, ◌≤◌, length, IfOk};
ghost use Rattle.external_event.specs.Limits.{most_packet_size};
ghost use Rattle.external_event.specs.Packet.{packet_of};

use aegis_limits::OutOfMemory;
use std::alloc::Global;
use std::marker::Model;

/// The bytes of the longest packet: a frame of the Ethernet without its checksum.
pub const MOST_PACKET_SIZE: usize = 1514;

/// The bytes of the shortest packet that is sent: a frame's header.
pub const LEAST_FRAME_SIZE: usize = 14;

/// The most packets that an environment sends.
pub const MOST_SENT: usize = 256;

/// A packet, as the list of its 1 to 1,514 bytes.
#[derive(Drop)]
pub struct PacketBytes {
    bytes: Vec<u8>,
}

impl Model for PacketBytes {
    ghost use Rattle.std.specs.Prelude.{ℕ, ◌≤◌, List, length};
    ghost use Rattle.external_event.specs.Limits.{most_packet_size};

    ghost Value = { List ℕ };

    ghost view = { λ packet. packet.bytes.items };

    ghost invariant = { λ packet. (1 ≤ length packet.bytes.items) × (length packet.bytes.items ≤ most_packet_size) };
}

impl PacketBytes {
    /// A packet of these bytes, which are copied. An `Err` says that there is no memory for them.
    pub fn new(alloc: Global, bytes: &[u8]) -> Result<PacketBytes, OutOfMemory>
        requires least { 1 ≤ length bytes.now }
        requires most { length bytes.now ≤ most_packet_size }
        ensures { IfOk result (λ packet. packet ≡ bytes.now) }
    {
        let bytes = Vec::from_slice(alloc, bytes)?;
        Ok(PacketBytes { bytes })
    }

    /// A packet of these bytes, if they are 1 to 1,514.
    pub fn from_bytes(bytes: Vec<u8>) -> Option<PacketBytes>
        ensures { result ≡ packet_of bytes.items }
    {
        if (1..=MOST_PACKET_SIZE).contains(&bytes.len()) {
            Some(PacketBytes { bytes })
        } else {
            None
        }
    }

    /// Its bytes.
    pub fn bytes(&self) -> &[u8]
        ensures bytes { result.now ≡ self.now }
        ensures least { 1 ≤ length self.now }
        ensures most { length self.now ≤ most_packet_size }
    {
        &self.bytes
    }
}
