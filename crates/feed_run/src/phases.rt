//! The phases of a tick, each told before it is made.
ghost use Rattle.std.specs.Prelude.{◌≡◌, ◌≤◌, ◌<◌, ◌+◌, [], ◌∷◌, OnOk, map};
ghost use Rattle.aegis_limits.specs.Limits.{most_ticks};
ghost use Rattle.board_model.specs.Showing.{world_of};
ghost use Rattle.board_model.specs.Ticks.{IsSameTick, IsTicked, MayHappen, MayTick};
ghost use Rattle.world_model.specs.Book.{is_idle_book};
ghost use Rattle.world_model.specs.Deadlines.{takings};
ghost use Rattle.world_model.specs.Event.{happen};
ghost use Rattle.world_model.specs.Tick.{serve_phases, step as step_phase, timer as timer_phase, turn as turn_phase};
ghost use Rattle.aegis_tick.specs.Agenda.{occurrences};
ghost use Rattle.aegis_tick.specs.Halves.{MayFinish};
ghost use Rattle.feed_run.specs.Phases.{PhasesTold, PhaseTold, phases_with};

use aegis_calls::{Board, SERVE_ROWS, STEP_ROWS, TURN_ROWS};
use aegis_limits::OutOfMemory;
use aegis_tick::{TICK_ROWS, event, make_room};
use external_event::Event;
use feed_board::BoardFeed;
use feed_log::FeedLog;
use feed_telling::{law_turn, tell_event, tell_step, tell_taking, tell_timer, tell_turn};
use world_model::WorldView;

/// These events, one after another, each told before it happens.
fn tell_events(
    board: &mut Board,
    log: &mut FeedLog,
    watched: u8,
    events: &[Event],
) -> Result<(), OutOfMemory>
    requires { MayHappen board.old }
    ensures told { OnOk result (PhasesTold watched (map happen (occurrences events.now)) (world_of board.old) (world_of board.new) log.old log.new) }
    ensures idle { OnOk result (is_idle_book (world_of board.new).book ≡ is_idle_book (world_of board.old).book) }
    ensures same { OnOk result (IsSameTick board.old board.new) }
{
    for one in events {
        make_room(board, TICK_ROWS)?;
        tell_event(&BoardFeed::of(board), log, watched, &one.what)?;
        event(board, one);
    }
    Ok(())
}

/// The deadlines that have come are served, each taking told before it is made. Apart from the tick, since it needs room for
/// a list of pages that few ticks use.
#[cold]
#[inline(never)]
fn tell_takings(board: &mut Board, log: &mut FeedLog, watched: u8) -> Result<(), OutOfMemory>
    requires { SERVE_ROWS ≤ board.old.ledger.spare }
    ensures told { OnOk result (PhasesTold watched (serve_phases (takings (world_of board.old))) (world_of board.old) (world_of board.new) log.old log.new) }
    ensures idle { OnOk result (is_idle_book (world_of board.new).book ≡ is_idle_book (world_of board.old).book) }
    ensures same { OnOk result (IsSameTick board.old board.new) }
    ensures room { OnOk result (board.old.ledger.spare ≤ board.new.ledger.spare + SERVE_ROWS) }
{
    let takings = board.takings();
    for place in 0..takings.len() {
        let taking = takings.get(place);
        board.law_sound();
        tell_taking(&BoardFeed::of(board), log, watched, taking)?;
        board.take_page(taking);
    }
    board.end_deadlines();
    Ok(())
}

/// The same, in a tick of which few have a deadline: where none has come, nothing is taken.
fn tell_deadlines(board: &mut Board, log: &mut FeedLog, watched: u8) -> Result<(), OutOfMemory>
    requires { SERVE_ROWS ≤ board.old.ledger.spare }
    ensures told { OnOk result (PhasesTold watched (serve_phases (takings (world_of board.old))) (world_of board.old) (world_of board.new) log.old log.new) }
    ensures idle { OnOk result (is_idle_book (world_of board.new).book ≡ is_idle_book (world_of board.old).book) }
    ensures same { OnOk result (IsSameTick board.old board.new) }
    ensures room { OnOk result (board.old.ledger.spare ≤ board.new.ledger.spare + SERVE_ROWS) }
{
    if board.revocations().is_due(board.time()) {
        return tell_takings(board, log, watched);
    }
    board.serve();
    Ok(())
}

/// The turn is taken, and told.
fn tell_its_turn(board: &mut Board, log: &mut FeedLog, watched: u8) -> Result<(), OutOfMemory>
    requires may { MayTick board.old }
    requires room { TURN_ROWS ≤ board.old.ledger.spare }
    ensures told { OnOk result (PhaseTold watched turn_phase (world_of board.old) (world_of board.new) log.old log.new) }
    ensures may { OnOk result (MayFinish board.new) }
    ensures time { OnOk result (board.new.time ≡ board.old.time) }
    ensures room { OnOk result (board.old.ledger.spare ≤ board.new.ledger.spare + TURN_ROWS) }
{
    law_turn();
    let before = board.runner();
    board.turn();
    tell_turn(log, watched, before, board.runner())
}

/// The runner's step is told, and made.
fn tell_its_step(board: &mut Board, log: &mut FeedLog, watched: u8) -> Result<(), OutOfMemory>
    requires may { MayFinish board.old }
    requires room { STEP_ROWS ≤ board.old.ledger.spare }
    ensures told { OnOk result (PhaseTold watched step_phase (world_of board.old) (world_of board.new) log.old log.new) }
    ensures time { OnOk result (board.new.time ≡ board.old.time) }
    ensures whole { OnOk result (board.new.roster.spare ≡ board.old.roster.spare) }
    ensures numbers { OnOk result (board.new.claims.next ≤ board.old.claims.next + 1) }
    ensures room { OnOk result (board.old.ledger.spare ≤ board.new.ledger.spare + STEP_ROWS) }
{
    if let Some(runner) = board.runner() {
        tell_step(&BoardFeed::of(board), log, watched, runner)?;
        board.step();
    }
    Ok(())
}

/// What the timer does is told, and done.
fn tell_its_timer(board: &mut Board, log: &mut FeedLog, watched: u8) -> Result<(), OutOfMemory>
    requires time { board.old.time < most_ticks }
    requires room { STEP_ROWS ≤ board.old.ledger.spare }
    ensures told { OnOk result (PhaseTold watched timer_phase (world_of board.old) (world_of board.new) log.old log.new) }
    ensures time { OnOk result (board.new.time ≡ board.old.time + 1) }
    ensures whole { OnOk result (board.new.roster.spare ≡ board.old.roster.spare) }
    ensures numbers { OnOk result (board.new.claims.next ≡ board.old.claims.next) }
{
    tell_timer(&BoardFeed::of(board), log, watched, board.runner())?;
    board.timer();
    Ok(())
}

/// The second half of a tick, told.
fn tell_second_half(board: &mut Board, log: &mut FeedLog, watched: u8) -> Result<(), OutOfMemory>
    requires may { MayFinish board.old }
    requires room { STEP_ROWS + STEP_ROWS ≤ board.old.ledger.spare }
    ensures told { OnOk result (PhasesTold watched (step_phase ∷ timer_phase ∷ []) (world_of board.old) (world_of board.new) log.old log.new) }
    ensures ticked { OnOk result (IsTicked board.old board.new) }
{
    tell_its_step(board, log, watched)?;
    tell_its_timer(board, log, watched)
}

/// A tick in which these events happen, told phase by phase.
pub(crate) fn tell_tick(
    board: &mut Board,
    log: &mut FeedLog,
    watched: u8,
    events: &[Event],
) -> Result<(), OutOfMemory>
    requires { MayTick board.old }
    ensures told { OnOk result (PhasesTold watched (phases_with (occurrences events.now) (world_of board.old)) (world_of board.old) (world_of board.new) log.old log.new) }
    ensures ticked { OnOk result (IsTicked board.old board.new) }
{
    tell_events(board, log, watched, events)?;
    make_room(board, TICK_ROWS)?;
    tell_deadlines(board, log, watched)?;
    tell_its_turn(board, log, watched)?;
    tell_second_half(board, log, watched)
}
