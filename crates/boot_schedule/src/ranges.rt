//! What the words of a schedule's lines mean, if they are in their ranges.
ghost use Rattle.std.specs.Prelude.{◌≤◌, IfOk};
ghost use Rattle.line_text.specs.Failing.{Gives, in_line};
ghost use Rattle.boot_schedule.specs.Answers.{parts_seen};
ghost use Rattle.boot_schedule.specs.Saying.{bytes_said, in_range, words_said};

use crate::fault::ScheduleWhy;
use crate::statement::Parts;
use aegis_limits::MOST_RUN_TICKS;
use external_event::{Event, LAST_ENVIRONMENT, LINES, MOST_ASKED, Occurrence, PacketBytes};
use hex::FromHexError;
use line_text::{Failure, Line, TextFailure, number_within};
use std::alloc::Global;

/// The greatest number of an interrupt line.
const LAST_LINE: u32 = LINES as u32 - 1;

/// The event that the words of a line say.
pub(crate) fn words_said(
    alloc: Global,
    line: &Line<'_>,
    parts: Parts<'_>,
) -> Result<Event, TextFailure<ScheduleWhy>>
    ensures { Gives (λ event. event) result (in_line line.now.number (words_said (parts_seen parts.entry))) }
{
    match parts {
        Parts::Packet { time, bytes } => {
            let time = in_range(line, time, MOST_RUN_TICKS)?;
            let packet = bytes_said(alloc, line, bytes)?;
            let what = Occurrence::Packet(packet);
            Ok(Event { time, what })
        }
        Parts::Line { time, number } => {
            let time = in_range(line, time, MOST_RUN_TICKS)?;
            let number = in_range(line, number, LAST_LINE)?;
            let what = Occurrence::Line(number as u8);
            Ok(Event { time, what })
        }
        Parts::Revoke {
            time,
            env,
            count,
            grace,
        } => {
            let time = in_range(line, time, MOST_RUN_TICKS)?;
            let env = in_range(line, env, u32::from(LAST_ENVIRONMENT))? as u8;
            let count = in_range(line, count, MOST_ASKED)?;
            let grace = in_range(line, grace, MOST_RUN_TICKS)?;
            let what = Occurrence::Revoke { env, count, grace };
            Ok(Event { time, what })
        }
    }
}

/// The number of a line's word, at most so much.
fn in_range(line: &Line<'_>, word: &[u8], most: u32) -> Result<u32, TextFailure<ScheduleWhy>>
    ensures said { Gives (λ n. n) result (in_line line.now.number (in_range most word.now)) }
    ensures within { IfOk result (λ n. n ≤ most) }
{
    number_within(word, 0, most).ok_or(line.breaks(ScheduleWhy::Range))
}

/// The packet of a line's word.
fn bytes_said(
    alloc: Global,
    line: &Line<'_>,
    word: &[u8],
) -> Result<PacketBytes, TextFailure<ScheduleWhy>>
    ensures { Gives (λ packet. packet) result (in_line line.now.number (bytes_said word.now)) }
{
    let bytes = match hex::decode(alloc, word) {
        Ok(bytes) => bytes,
        Err(FromHexError::OutOfMemory) => return Err(Failure::OutOfMemory),
        Err(_) => return Err(line.breaks(ScheduleWhy::Hex)),
    };
    PacketBytes::from_bytes(bytes).ok_or(line.breaks(ScheduleWhy::Range))
}
