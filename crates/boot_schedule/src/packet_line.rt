//! The lines of packets, of which a long schedule has most, read straight through.
ghost use Rattle.std.specs.Prelude.{◌≡◌, ◌==◌, IfSome, Ok, Some};
ghost use Rattle.std.specs.List.{position};
ghost use Rattle.boot_schedule.specs.Pieces.{piece_said};

use crate::digits::decoded;
use crate::pieces::before_line_feed;
use aegis_limits::MOST_RUN_TICKS;
use external_event::{Event, Occurrence, PacketBytes};
use line_text::number_within;
use std::alloc::Global;

/// What stands between the time and the bytes of a packet's line.
const BETWEEN: &[u8] = b" packet ";

/// The event of a line of the form `TIME packet BYTES`, with one space before and behind the word and a line feed at
/// its end, that has no fault. `None` says nothing of the line: it may have another form or a fault, or memory may
/// have run out.
pub(crate) fn packet_said(alloc: Global, piece: &[u8]) -> Option<Event>
    ensures { IfSome result (λ event. piece_said piece.now ≡ Ok (Some event)) }
{
    let line = before_line_feed(piece)?;
    let (time, rest) = line.split_at(first_space(line)?);
    let digits = rest.strip_prefix(BETWEEN)?;
    let time = number_within(time, 0, MOST_RUN_TICKS)?;
    let packet = PacketBytes::from_bytes(decoded(alloc, digits)?)?;
    Some(Event {
        time,
        what: Occurrence::Packet(packet),
    })
}

/// The place of the first space.
fn first_space(line: &[u8]) -> Option<usize>
    ensures { result ≡ position (λ b. b == 32) line.now }
{
    line.iter().position(|byte| *byte == b' ')
}
