//! A packet that is sent.
ghost use Rattle.std.specs.Prelude.{◌≡◌, ◌≤◌, length};
ghost use Rattle.external_event.specs.Limits.{most_packet_size};

use crate::packet::MOST_PACKET_SIZE;
use arrayvec::ArrayVec;
use std::marker::Model;

/// A packet that is sent, by a call or as a handler's reply, as the list of its bytes, at most 1,514. They stand in
/// place, since what sends takes no memory.
#[derive(Drop, Default)]
pub struct SentPacket {
    bytes: ArrayVec<u8, MOST_PACKET_SIZE>,
}

impl Model for SentPacket {
    ghost use Rattle.std.specs.Prelude.{ℕ, List};

    ghost Value = { List ℕ };

    ghost view = { λ packet. packet.bytes.items };
}

impl SentPacket {
    /// A packet of these bytes, which are copied.
    pub fn new(bytes: &[u8]) -> SentPacket
        requires { length bytes.now ≤ most_packet_size }
        ensures { result ≡ bytes.now }
    {
        let mut copy = ArrayVec::new();
        copy.try_extend_from_slice(bytes).unwrap();
        SentPacket { bytes: copy }
    }

    /// Its bytes.
    pub fn bytes(&self) -> &[u8]
        ensures { result.now ≡ self.now }
    {
        self.bytes.as_slice()
    }
}
