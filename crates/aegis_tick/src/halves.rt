//! A tick in its two halves.
ghost use Rattle.std.specs.Prelude.{◌≡◌, ◌≤◌, ◌+◌, ◌*◌, length, IsOk, OnOk, OnErr};
ghost use Rattle.board_model.specs.Showing.{world_of};
ghost use Rattle.board_model.specs.Ticks.{IsSameTick, IsTicked, MayTick};
ghost use Rattle.tlb_course.specs.Course.{cache_finished, cache_served};
ghost use Rattle.aegis_tick.specs.Agenda.{occurrences};
ghost use Rattle.aegis_tick.specs.Course.{HappenedInPart, world_with};
ghost use Rattle.aegis_tick.specs.Halves.{MayFinish, first_half, second_half};

use crate::running::{TICK_ROWS, happen_first};
use aegis_calls::{Board, STEP_ROWS};
use aegis_limits::OutOfMemory;
use external_event::Event;

/// Rows enough for the second half of a tick, with its step and the timer.
pub(crate) const HALF_ROWS: u32 = 2 * STEP_ROWS as u32;

/// The first half of a tick: the deadlines that have come are served, and the turn is taken, so that somebody runs. It
/// takes no memory, and leaves the rows that the second half wants.
#[inline(always)]
pub(crate) fn begin_tick(board: &mut Board)
    requires may { MayTick board.old }
    requires room { TICK_ROWS ≤ board.old.ledger.spare }
    ensures world { world_of board.new ≡ first_half (world_of board.old) }
    ensures tlb { board.new.tlb ≡ cache_served (world_of board.old) board.old.tlb }
    ensures may { MayFinish board.new }
    ensures same { IsSameTick board.old board.new }
    ensures room { board.old.ledger.spare + HALF_ROWS ≤ board.new.ledger.spare + TICK_ROWS }
{
    board.serve();
    board.turn();
}

/// The second half: the runner's step with its call or death, and the timer. It takes no memory.
#[inline(always)]
pub(crate) fn finish_tick(board: &mut Board)
    requires may { MayFinish board.old }
    requires room { HALF_ROWS ≤ board.old.ledger.spare }
    ensures world { world_of board.new ≡ second_half (world_of board.old) }
    ensures tlb { board.new.tlb ≡ cache_finished (world_of board.old) board.old.tlb }
    ensures ticked { IsTicked board.old board.new }
    ensures room { board.old.ledger.spare ≤ board.new.ledger.spare + HALF_ROWS }
{
    board.step();
    board.timer();
}

/// The first half of a tick after what happens in it: these events, in their order. After Ok the rows that the second
/// half wants are spare; after a refusal some first events have happened.
pub(crate) fn begin_with(board: &mut Board, events: &[Event]) -> Result<(), OutOfMemory>
    requires may { MayTick board.old }
    ensures world { OnOk result (world_of board.new ≡ first_half (world_with (occurrences events.now) (world_of board.old))) }
    ensures tlb { OnOk result (board.new.tlb ≡ cache_served (world_with (occurrences events.now) (world_of board.old)) board.old.tlb) }
    ensures may { OnOk result (MayFinish board.new) }
    ensures same { OnOk result (IsSameTick board.old board.new) }
    ensures room { OnOk result (HALF_ROWS ≤ board.new.ledger.spare) }
    ensures part { OnErr result (HappenedInPart (occurrences events.now) (world_of board.old) (world_of board.new)) }
    ensures sure { TICK_ROWS * (length events.now + 1) ≤ board.old.ledger.spare → IsOk result }
{
    happen_first(board, events)?;
    begin_tick(board);
    Ok(())
}
