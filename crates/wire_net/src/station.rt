//! A machine on the wire, in its ticks.
ghost use Rattle.std.specs.Prelude.{◌≡◌, ◌≤◌, ◌<◌, ◌+◌, ◌-◌, ◌∷◌, [], false, OnOk, OnErr};
ghost use Rattle.aegis_limits.specs.Limits.{most_ticks};
ghost use Rattle.board_model.specs.Showing.{world_of};
ghost use Rattle.board_model.specs.Ticks.{IsSameTick, IsTicked, MayHappen, MayTick};
ghost use Rattle.world_model.specs.Book.{is_idle_book};
ghost use Rattle.world_model.specs.Tick.{tick_step};
ghost use Rattle.aegis_tick.specs.Agenda.{next_time_of};
ghost use Rattle.aegis_tick.specs.Course.{HappenedInPart, world_with};
ghost use Rattle.wire_model.specs.Wire.{after_tick};
ghost use Rattle.wire_net.specs.Delivery.{arriving};
ghost use Rattle.wire_net.specs.Station.{AreSilent, IsBetween, happening};

use crate::delivery::Delivery;
use aegis_calls::Board;
use aegis_limits::OutOfMemory;
use aegis_tick::{Agenda, TICK_ROWS, event, happen_all, make_room, tick};
use external_event::Event;

/// A delivery arrives, if it is for this machine.
fn arrive(board: &mut Board, delivery: &Delivery, machine: u8) -> Result<(), OutOfMemory>
    requires { MayHappen board.old }
    ensures world { OnOk result (world_of board.new ≡ world_with (arriving machine (delivery.now ∷ [])) (world_of board.old)) }
    ensures refused { OnErr result (world_of board.new ≡ world_of board.old) }
    ensures same { IsSameTick board.old board.new }
{
    if delivery.is_for(machine) {
        make_room(board, TICK_ROWS)?;
        event(board, &delivery.event);
    }
    Ok(())
}

/// Of these deliveries those that are for this machine arrive, one after another.
fn arrive_all(board: &mut Board, due: &[Delivery], machine: u8) -> Result<(), OutOfMemory>
    requires { MayHappen board.old }
    ensures world { OnOk result (world_of board.new ≡ world_with (arriving machine due.now) (world_of board.old)) }
    ensures part { OnErr result (HappenedInPart (arriving machine due.now) (world_of board.old) (world_of board.new)) }
    ensures same { IsSameTick board.old board.new }
{
    for delivery in due {
        arrive(board, delivery, machine)?;
    }
    Ok(())
}

/// One tick of a machine: these events of its schedule, then what arrives, and then the rest of the tick.
fn tick_with(
    board: &mut Board,
    events: &[Event],
    due: &[Delivery],
    machine: u8,
) -> Result<(), OutOfMemory>
    requires may { MayTick board.old }
    ensures world { OnOk result (world_of board.new ≡ tick_step (world_with (happening machine events.now due.now) (world_of board.old))) }
    ensures part { OnErr result (HappenedInPart (happening machine events.now due.now) (world_of board.old) (world_of board.new)) }
    ensures ticked { OnOk result (IsTicked board.old board.new) }
{
    happen_all(board, events)?;
    arrive_all(board, due, machine)?;
    make_room(board, TICK_ROWS)?;
    tick(board);
    Ok(())
}

/// One tick of a machine, if it isn't idle.
pub(crate) fn advance(
    board: &mut Board,
    events: &[Event],
    due: &[Delivery],
    machine: u8,
    time: u32,
) -> Result<(), OutOfMemory>
    requires limit { time < most_ticks }
    requires between { IsBetween time board.old }
    ensures world { OnOk result (world_of board.new ≡ after_tick (happening machine events.now due.now) (world_of board.old)) }
    ensures part { OnErr result (HappenedInPart (happening machine events.now due.now) (world_of board.old) (world_of board.new)) }
    ensures busy { OnErr result (is_idle_book (world_of board.old).book ≡ false) }
    ensures between { OnOk result (IsBetween (time + 1) board.new) }
{
    if board.idle() {
        return Ok(());
    }
    tick_with(board, events, due, machine)
}

/// Runs a machine on from a tick, as long as its runner steps and nothing else happens: before the next of its events
/// and until another tick at most. The result is how many ticks it made, in which nobody sends. An idle machine stays as
/// it is in all of them.
pub(crate) fn run_on(board: &mut Board, agenda: &Agenda<'_>, from: u32, until: u32) -> u32
    requires limit { until ≤ most_ticks }
    requires between { IsBetween from board.old }
    ensures silent { AreSilent from result (world_of board.old) (world_of board.new) }
    ensures between { IsBetween (from + result) board.new }
    ensures before_event { result ≤ next_time_of agenda.now - from }
    ensures before_arrival { result ≤ until - from }
{
    let most = agenda.ticks_before(from, until.saturating_sub(from));
    if most == 0 || board.idle() {
        return most;
    }
    board.stretch(most).made
}
