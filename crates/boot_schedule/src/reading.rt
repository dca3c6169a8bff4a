//! The reader of schedules, line by line.
ghost use Rattle.std.specs.Prelude.{◌≡◌, ◌∷◌, [], ◌<◌, ◌^◌, None, Some, Ok, length, IfErr, IfOk};
ghost use Rattle.std.specs.Option.{option_map};
ghost use Rattle.line_text.specs.Failing.{Gives, IsFound, fault_at, in_line};
ghost use Rattle.line_text.specs.Lines.{pieces_of};
ghost use Rattle.boot_schedule.specs.Pieces.{piece_fault, piece_said};
ghost use Rattle.boot_schedule.specs.Saying.{said};
ghost use Rattle.boot_schedule.specs.Schedule.{place_fault, schedule_fault, events_of};

use crate::fault::ScheduleWhy;
use crate::packet_line::packet_said;
use crate::pieces::piece_length;
use crate::ranges::words_said;
use crate::statement::parts_of;
use external_event::Event;
use line_text::{Failure, Line, LineFault, TextFailure, statements_of};
use std::alloc::Global;

/// The events of the longest schedule.
pub const MOST_EVENTS: usize = 65_536;

/// Reads a schedule, or answers its first fault, unless memory runs out. `docs/FORMATS.md`, "Schedule", has the
/// format and the faults in their order.
#[tactic(auto, unfolding(crate::specs::Schedule::schedule_fault, crate::specs::Schedule::events_of))]
pub fn read_schedule(alloc: Global, text: &[u8]) -> Result<Vec<Event>, TextFailure<ScheduleWhy>>
    requires { length text.now < 2 ^ 27 }
    ensures ok { IfOk result (λ events. (schedule_fault text.now ≡ None) × (events.items ≡ events_of text.now)) }
    ensures err { IfErr result (IsFound (schedule_fault text.now)) }
{
    let mut events = Vec::new(alloc);
    let mut before = 0;
    let mut number = 1;
    let mut rest = text;
    'lines: while !rest.is_empty() {
        let (piece, after) = rest.split_at(piece_length(rest));
        let said = read_piece(alloc, number, piece, before, events.len())?;
        if let Some(event) = said {
            before = event.time;
            events.push(event)?;
        }
        rest = after;
        number += 1;
    }
    Ok(events)
}

/// The event of the line of this number, which so many others stand before, the last of them of this time. An empty
/// line has none.
fn read_piece(
    alloc: Global,
    number: u32,
    piece: &[u8],
    before: u32,
    others: usize,
) -> Result<Option<Event>, TextFailure<ScheduleWhy>>
    requires small { length piece.now < 2 ^ 27 }
    requires one { pieces_of piece.now ≡ piece.now ∷ [] }
    ensures ok { IfOk result (λ event. (piece_said piece.now ≡ Ok event) × (piece_fault before others (Ok event) ≡ None)) }
    ensures err { IfErr result (IsFound (option_map (fault_at number) (piece_fault before others (piece_said piece.now)))) }
{
    let Some(event) = piece_said(alloc, number, piece)? else {
        return Ok(None);
    };
    match place_fault(before, others, &event) {
        Some(why) => Err(Failure::Fault(LineFault { line: number, why })),
        None => Ok(Some(event)),
    }
}

/// The fault of an event's place, which so many others stand before, the last of them of this time.
fn place_fault(before: u32, others: usize, event: &Event) -> Option<ScheduleWhy>
    ensures { result ≡ place_fault before others event.now }
{
    if event.time < before {
        Some(ScheduleWhy::Order)
    } else if others >= MOST_EVENTS {
        Some(ScheduleWhy::Many)
    } else {
        None
    }
}

/// The event that a line says by itself, if it isn't empty.
fn piece_said(
    alloc: Global,
    number: u32,
    piece: &[u8],
) -> Result<Option<Event>, TextFailure<ScheduleWhy>>
    requires small { length piece.now < 2 ^ 27 }
    requires one { pieces_of piece.now ≡ piece.now ∷ [] }
    ensures { Gives (λ event. event) result (in_line number (piece_said piece.now)) }
{
    match packet_said(alloc, piece) {
        Some(event) => Ok(Some(event)),
        None => statement_said(alloc, number, piece),
    }
}

/// The same, whatever the form of the line.
fn statement_said(
    alloc: Global,
    number: u32,
    piece: &[u8],
) -> Result<Option<Event>, TextFailure<ScheduleWhy>>
    requires small { length piece.now < 2 ^ 27 }
    requires one { pieces_of piece.now ≡ piece.now ∷ [] }
    ensures { Gives (λ event. event) result (in_line number (piece_said piece.now)) }
{
    let Some(line) = statements_of(piece).next() else {
        return Ok(None);
    };
    match said_by_words(alloc, &Line { number, ..line }) {
        Ok(event) => Ok(Some(event)),
        Err(why) => Err(why),
    }
}

/// The event that the words of a line say.
fn said_by_words(alloc: Global, line: &Line<'_>) -> Result<Event, TextFailure<ScheduleWhy>>
    ensures { Gives (λ event. event) result (in_line line.now.number (said line.now.text.now)) }
{
    let parts = parts_of(line.text).ok_or(line.breaks(ScheduleWhy::Syntax))?;
    words_said(alloc, line, parts)
}
