//! The schedule of the load.
ghost use Rattle.std.specs.Prelude.{◌≡◌, ◌+◌, ◌*◌, ◌<◌, IfOk, length, true};
ghost use Rattle.external_event.specs.Order.{are_in_order};
ghost use Rattle.exos_text.specs.Draws.{drawn};
ghost use Rattle.exos_text.specs.LoadSchedule.{load_event, load_events, load_packet};

use crate::draws::Draws;
use aegis_limits::OutOfMemory;
use arrayvec::ArrayVec;
use external_event::{Event, Occurrence, PacketBytes};
use std::alloc::Global;

/// How many packets arrive.
const PACKETS: u32 = 1000;

/// The ticks from one packet to the next.
const SPACING: u32 = 1000;

/// The bytes of a packet.
const PACKET_SIZE: usize = 64;

/// How many values the first byte of a packet has.
const FIRST_BYTES: u32 = 32;

/// The bytes of the next packet.
#[tactic(auto, using(std::proofs::lemmas::Grind::common_steps, crate::proofs::Drawing::drawn_one, crate::proofs::Drawing::drawn_next, crate::proofs::Drawing::bytes_more, crate::proofs::Drawing::packet_is))]
fn packet(draws: &mut Draws) -> ArrayVec<u8, PACKET_SIZE>
    ensures bytes { result.items ≡ load_packet draws.old.number }
    ensures size { length result.items ≡ 64 }
    ensures number { draws.new.number ≡ drawn 64 draws.old.number }
{
    let mut bytes = ArrayVec::new();
    bytes.push(((draws.draw() >> 16) % FIRST_BYTES) as u8);
    for _ in 0..PACKET_SIZE - 1 {
        bytes.push((draws.draw() >> 24) as u8);
    }
    bytes
}

/// The next packet, as the event of this number.
#[tactic(auto, using(crate::proofs::Drawing::drawn_packets), unfolding(crate::specs::LoadSchedule::load_event))]
fn event(alloc: Global, draws: &mut Draws, seed: u32, number: u32) -> Result<Event, OutOfMemory>
    requires number { number < PACKETS }
    requires draws { draws.old.number ≡ drawn (1 + 64 * number) seed }
    ensures event { IfOk result (λ event. event ≡ load_event seed number) }
    ensures draws { draws.new.number ≡ drawn (1 + 64 * (number + 1)) seed }
{
    let bytes = packet(draws);
    let packet = PacketBytes::new(alloc, &bytes)?;
    Ok(Event {
        time: SPACING * number,
        what: Occurrence::Packet(packet),
    })
}

/// The schedule of the load that a seed gives: a packet in every thousandth tick. The error is that memory ran out.
#[tactic(auto, using(std::proofs::lemmas::Grind::common_steps, crate::proofs::Drawing::drawn_one, crate::proofs::Programs::made_more, crate::proofs::Ordering::events_are))]
pub fn load_schedule(alloc: Global, seed: u32) -> Result<Vec<Event>, OutOfMemory>
    ensures events { IfOk result (λ events. events.items ≡ load_events seed) }
    ensures order { IfOk result (λ events. are_in_order 0 events.items ≡ true) }
{
    let mut draws = Draws { number: seed };
    draws.draw();
    let mut events = Vec::with_capacity(alloc, PACKETS as usize)?;
    for number in 0..PACKETS {
        events.push(event(alloc, &mut draws, seed, number)?)?;
    }
    Ok(events)
}
