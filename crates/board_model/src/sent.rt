//! The packets that an environment sends.
ghost use Rattle.std.specs.Prelude.{◌≡◌, ◌<◌, ◌≤◌, [], ◌∷◌, ◌++◌, length, slice_get, IfOk};
ghost use Rattle.std.specs.Option.{option_map};
ghost use Rattle.external_event.specs.Limits.{most_packet_size, most_sent};
ghost use Rattle.world_model.specs.Rings.{sent_with_replies};

use aegis_limits::OutOfMemory;
use external_event::{MOST_SENT, SentPacket};
use std::alloc::Global;
use std::marker::Model;

/// What an environment sent, packet by packet. The memory for all that it may send is taken when it is made.
#[derive(Drop)]
pub struct Sent {
    packets: Vec<SentPacket>,
}

impl Model for Sent {
    ghost use Rattle.std.specs.Prelude.{ℕ, ◌≤◌, List, vec_len, vec_capacity};
    ghost use Rattle.external_event.specs.Limits.{most_sent};

    ghost Value = { List (List ℕ) };

    ghost view = { λ s. s.packets.items };

    ghost invariant = { λ s. (most_sent ≤ vec_capacity s.packets) × (vec_len s.packets ≤ most_sent) };
}

impl Sent {
    /// No packet yet.
    pub fn new(alloc: Global) -> Result<Sent, OutOfMemory>
        ensures { IfOk result (λ s. s ≡ []) }
    {
        let packets = Vec::with_capacity(alloc, MOST_SENT)?;
        Ok(Sent { packets })
    }

    /// How many packets it holds.
    pub fn len(&self) -> usize
        ensures { result ≡ length self.now }
    {
        self.packets.len()
    }

    /// The packet of this place, in the order of sending; none past the last.
    pub fn packet(&self, place: usize) -> Option<&[u8]>
        ensures { option_map (λ r. r.now) result ≡ slice_get self.now place }
    {
        let packet = self.packets.get(place)?;
        Some(packet.bytes())
    }

    /// Appends a packet of these bytes, for which there must be room.
    pub fn send(&mut self, bytes: &[u8])
        requires size { length bytes.now ≤ most_packet_size }
        requires room { length self.old < most_sent }
        ensures { self.new ≡ self.old ++ bytes.now ∷ [] }
    {
        self.packets.push(SentPacket::new(bytes)).unwrap();
    }

    /// Appends a packet of these bytes, or drops it where 256 are held.
    pub fn reply(&mut self, bytes: &[u8])
        requires { length bytes.now ≤ most_packet_size }
        ensures { self.new ≡ sent_with_replies self.old (bytes.now ∷ []) }
    {
        if self.packets.len() < MOST_SENT {
            self.send(bytes);
        }
    }

    /// Law: it holds at most 256 packets.
    pub fn law_few(&self)
        ensures { length self.now ≤ most_sent }
    {
        let _ = &self.packets;
    }
}
