//! The ticks of a board, and what happens in them.
ghost use Rattle.std.specs.Prelude.{◌≡◌, ◌≤◌, ◌<◌, ◌+◌, ◌-◌, ◌*◌, ◌==◌, drop, min, false, length, true, IfOk, IfSome, IsOk, OnOk, OnErr};
ghost use Rattle.std.specs.List.{prefix_len, take_while};
ghost use Rattle.aegis_limits.specs.Limits.{most_ticks};
ghost use Rattle.board_model.specs.Shown.{with_spare};
ghost use Rattle.board_model.specs.Showing.{world_of};
ghost use Rattle.board_model.specs.Ticks.{IsFresh, IsSameTick, IsTicked, MayHappen, MayTick};
ghost use Rattle.external_event.specs.EventValue.{EventValue};
ghost use Rattle.external_event.specs.Order.{are_in_order};
ghost use Rattle.kernel_journal.specs.Ledger.{spare_after};
ghost use Rattle.world_model.specs.Book.{is_idle_book};
ghost use Rattle.world_model.specs.Event.{happen, schedule_of};
ghost use Rattle.world_model.specs.Tick.{tick_step};
ghost use Rattle.world_model.specs.World.{after};
ghost use Rattle.tlb_course.specs.Fills.{AreFew};
ghost use Rattle.run_model.specs.Excess.{IsAccounted};
ghost use Rattle.run_model.specs.Run.{world_after_ticks, end_of_run};
ghost use Rattle.tlb_course.specs.Course.{cache_after_ticks, cache_ticked};
ghost use Rattle.aegis_calls.specs.Entering.{IsEntering};
ghost use Rattle.aegis_tick.specs.Agenda.{next_time_of, occurrences};
ghost use Rattle.aegis_tick.specs.Course.{HappenedInPart, IsCutOff, IsReady, IsSure, world_with};

use crate::halves::{begin_tick, finish_tick};
use crate::laws::law_halves;
use aegis_calls::{Board, SERVE_ROWS, STEP_ROWS, TURN_ROWS};
use aegis_limits::OutOfMemory;
use external_event::Event;
use kernel_journal::RunEnd;
use r3k_machine::Entry;
use run_model::law_accounts;
use tlb_course::{law_fills, law_further};
use world_model::WorldView;

/// Rows enough for a tick, with its deadlines, its turn, its step and the timer; and for an event.
pub const TICK_ROWS: u32 = (SERVE_ROWS + TURN_ROWS + 2 * STEP_ROWS) as u32;

/// Takes memory for so many rows of the ledger more, where it isn't there yet. After Ok that many are
/// spare, and all else is as before; after a refusal the board is as before.
#[inline(always)]
pub fn make_room(board: &mut Board, rows: u32) -> Result<(), OutOfMemory>
    ensures room { OnOk result (rows ≤ board.new.ledger.spare) }
    ensures world { world_of board.new ≡ world_of board.old }
    ensures same { board.new ≡ with_spare board.old board.new.ledger.spare }
    ensures taken { OnOk result (board.new.ledger.spare ≡ spare_after board.old.ledger rows) }
    ensures there { rows ≤ board.old.ledger.spare → IsOk result × (board.new ≡ board.old) }
    ensures refused { OnErr result (board.new ≡ board.old) }
{
    board.make_room(rows)
}

/// What happens from outside by an event, before the turn of its tick. It takes no memory.
pub fn event(board: &mut Board, event: &Event)
    requires room { TICK_ROWS ≤ board.old.ledger.spare }
    requires may { MayHappen board.old }
    ensures world { world_of board.new ≡ after (world_of board.old) (happen event.now.what (world_of board.old)) }
    ensures idle { is_idle_book (world_of board.new).book ≡ is_idle_book (world_of board.old).book }
    ensures tlb { board.new.tlb ≡ board.old.tlb }
    ensures same { IsSameTick board.old board.new }
    ensures room { board.old.ledger.spare ≤ board.new.ledger.spare + TICK_ROWS }
{
    board.happen(&event.what);
}

/// One tick in which nothing happens from outside: the deadlines that have come, the turn, the runner's step, and the
/// timer. It is its two halves, and takes no memory. A tick makes one claim at most, so that the number of the next claim is
/// at most the time. It refills at most two rows of the TLB and forwards at most one miss, all of one environment.
#[inline(always)]
pub fn tick(board: &mut Board)
    requires may { MayTick board.old }
    requires room { TICK_ROWS ≤ board.old.ledger.spare }
    ensures world { world_of board.new ≡ tick_step (world_of board.old) }
    ensures tlb { board.new.tlb ≡ cache_ticked (world_of board.old) board.old.tlb }
    ensures fills { AreFew board.old.tlb.fills board.new.tlb.fills }
    ensures ticked { IsTicked board.old board.new }
    ensures room { board.old.ledger.spare ≤ board.new.ledger.spare + TICK_ROWS }
{
    law_fills();
    law_halves();
    begin_tick(board);
    finish_tick(board);
}

/// These events happen, one after another.
#[inline(always)]
pub fn happen_all(board: &mut Board, events: &[Event]) -> Result<(), OutOfMemory>
    requires { MayHappen board.old }
    ensures world { OnOk result (world_of board.new ≡ world_with (occurrences events.now) (world_of board.old)) }
    ensures tlb { board.new.tlb ≡ board.old.tlb }
    ensures part { OnErr result (HappenedInPart (occurrences events.now) (world_of board.old) (world_of board.new)) }
    ensures same { IsSameTick board.old board.new }
    ensures sure { IsSure (length events.now) result board.old.ledger.spare board.new.ledger.spare }
{
    for one in events {
        make_room(board, TICK_ROWS)?;
        event(board, one);
    }
    Ok(())
}

/// What happens in a tick: these events, in their order. After Ok there are the rows for the rest of the tick.
#[inline(always)]
pub(crate) fn happen_first(board: &mut Board, events: &[Event]) -> Result<(), OutOfMemory>
    requires may { MayTick board.old }
    ensures world { OnOk result (world_of board.new ≡ world_with (occurrences events.now) (world_of board.old)) }
    ensures tlb { board.new.tlb ≡ board.old.tlb }
    ensures may { OnOk result (MayTick board.new) }
    ensures same { IsSameTick board.old board.new }
    ensures room { OnOk result (TICK_ROWS ≤ board.new.ledger.spare) }
    ensures part { OnErr result (HappenedInPart (occurrences events.now) (world_of board.old) (world_of board.new)) }
    ensures sure { IsReady (length events.now) result board.old.ledger.spare board.new.ledger.spare }
{
    happen_all(board, events)?;
    make_room(board, TICK_ROWS)?;
    Ok(())
}

/// One tick with what happens in it: these events, in their order, and then the rest of the tick.
#[inline(always)]
fn tick_with(board: &mut Board, events: &[Event]) -> Result<(), OutOfMemory>
    requires may { MayTick board.old }
    ensures world { OnOk result (world_of board.new ≡ tick_step (world_with (occurrences events.now) (world_of board.old))) }
    ensures tlb { OnOk result (board.new.tlb ≡ cache_ticked (world_with (occurrences events.now) (world_of board.old)) board.old.tlb) }
    ensures part { OnErr result (HappenedInPart (occurrences events.now) (world_of board.old) (world_of board.new)) }
    ensures ticked { OnOk result (IsTicked board.old board.new) }
    ensures early { OnErr result (IsSameTick board.old board.new × (board.new.tlb ≡ board.old.tlb)) }
    ensures sure { IsSure (length events.now + 1) result board.old.ledger.spare board.new.ledger.spare }
{
    happen_first(board, events)?;
    tick(board);
    Ok(())
}

/// One tick in which nothing happens from outside, and by whose step the runner is known to enter the kernel.
#[inline(always)]
fn tick_entering(board: &mut Board, entry: Entry) -> Result<(), OutOfMemory>
    requires may { MayTick board.old }
    requires entering { IsEntering board.old entry }
    ensures world { OnOk result (world_of board.new ≡ tick_step (world_of board.old)) }
    ensures tlb { OnOk result (board.new.tlb ≡ cache_ticked (world_of board.old) board.old.tlb) }
    ensures ticked { OnOk result (IsTicked board.old board.new) }
    ensures refused { OnErr result (board.new ≡ board.old) }
    ensures sure { IsSure 1 result board.old.ledger.spare board.new.ledger.spare }
{
    law_halves();
    make_room(board, TICK_ROWS)?;
    board.enter(entry);
    board.timer();
    Ok(())
}

/// One tick with what happens in it, as `tick_with` makes it, where it may be known by what the runner enters the kernel.
#[inline(always)]
pub(crate) fn tick_next(
    board: &mut Board,
    events: &[Event],
    entry: Option<Entry>,
) -> Result<(), OutOfMemory>
    requires may { MayTick board.old }
    requires entering { IfSome entry (IsEntering board.old) }
    ensures world { OnOk result (world_of board.new ≡ tick_step (world_with (occurrences events.now) (world_of board.old))) }
    ensures tlb { OnOk result (board.new.tlb ≡ cache_ticked (world_with (occurrences events.now) (world_of board.old)) board.old.tlb) }
    ensures part { OnErr result (HappenedInPart (occurrences events.now) (world_of board.old) (world_of board.new)) }
    ensures ticked { OnOk result (IsTicked board.old board.new) }
    ensures early { OnErr result (IsSameTick board.old board.new × (board.new.tlb ≡ board.old.tlb)) }
    ensures sure { IsSure (length events.now + 1) result board.old.ledger.spare board.new.ledger.spare }
{
    match entry {
        Some(entry) if events.is_empty() => tick_entering(board, entry),
        _ => tick_with(board, events),
    }
}
