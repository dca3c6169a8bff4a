//! The machines on a wire. Each makes a tick by its parts, and then runs on by itself, ahead of the others, until
//! something may happen in it from outside.
ghost use Rattle.std.specs.Prelude.{◌≡◌, ℕ, Vec, ◌≤◌, ◌<◌, ◌++◌, IfOk, OnOk, OnErr, length, get_or, true};
ghost use Rattle.std.specs.Global.{Global};
ghost use Rattle.aegis_limits.specs.Limits.{most_run_ticks, most_ticks};
ghost use Rattle.board_model.specs.Shown.{Shown};
ghost use Rattle.board_model.specs.Ticks.{IsFresh};
ghost use Rattle.external_event.specs.EventValue.{EventValue};
ghost use Rattle.external_event.specs.Order.{are_in_order};
ghost use Rattle.wire_model.specs.Limits.{most_delay, most_machines, most_wire_ticks};
ghost use Rattle.wire_model.specs.Wire.{Wire};
ghost use Rattle.wire_net.specs.Course.{AllCameSoFar, AllShow, IsWireOf};
ghost use Rattle.wire_net.specs.Sending.{sent_by, sent_by_all};
ghost use Rattle.wire_net.specs.Station.{AreCounted, IsAt, IsThrough, Partly};
ghost use Rattle.wire_net.specs.Stations.{AreAt, AreAtStart, AreThrough, HaveHappened, NoneBefore};

use crate::delivery::{Batch, Delivery, first_arrival, put, take_due};
use crate::sending::{Route, send_new};
use crate::station::{advance, run_on};
use aegis_calls::Board;
use aegis_limits::OutOfMemory;
use aegis_tick::{Agenda, law_agenda};
use external_event::Event;
use run_model::law_time;
use std::alloc::Global;
use std::collections::VecDeque;
use wire_model::{law_settled, law_tick};
use world_model::WorldView;

/// Where a machine is, what is still to come for it, and what it has on the wire.
#[derive(Drop)]
pub(crate) struct Station<'a> {
    /// The tick that it makes next.
    pub time: u32,
    /// The events of its schedule that are to come.
    pub agenda: Agenda<'a>,
    /// How many packets each of its environments has put on the wire.
    pub sent: Vec<usize>,
}

/// A tick of the machines: which it is, when what is sent in it arrives, and until when nothing arrives behind it.
#[derive(Clone, Copy)]
struct Moment {
    time: u32,
    arrival: u32,
    until: u32,
}

/// How many packets each environment of a board sent.
fn sent_counts(alloc: Global, board: &Board) -> Result<Vec<usize>, OutOfMemory>
    ensures { IfOk result (λ sent. AreCounted board.now sent.items) }
{
    let mut sent = Vec::new(alloc);
    for env in 0..board.envs() {
        sent.push(board.sent_count(env))?;
    }
    Ok(sent)
}

/// The stations of these boards, with these schedules.
fn stations_of<'a>(
    alloc: Global,
    boards: &[Board],
    schedules: &'a [Vec<Event>],
) -> Result<Vec<Station<'a>>, OutOfMemory>
    requires { length schedules.now ≡ length boards.now }
    ensures { IfOk result (λ stations. AreAtStart boards.now schedules.now stations.items) }
{
    let mut stations = Vec::new(alloc);
    for place in 0..boards.len() {
        let sent = sent_counts(alloc, &boards[place])?;
        stations.push(Station {
            time: 0,
            agenda: Agenda::of(schedules[place].as_slice()),
            sent,
        })?;
    }
    Ok(stations)
}

/// A tick of one machine, unless it is ahead of it, with what it sends in it. If it isn't idle it makes the tick. Then it
/// runs on, as long as nothing can happen in it from outside.
fn tick_one(
    alloc: Global,
    board: &mut Board,
    station: &mut Station<'_>,
    due_now: &[Delivery],
    machine: u8,
    moment: Moment,
    out: &mut Vec<Delivery>,
) -> Result<(), OutOfMemory>
    requires limit { moment.time < most_ticks }
    requires arrival { moment.arrival ≤ most_run_ticks }
    requires until { moment.until ≤ most_ticks }
    requires later { moment.time ≤ station.old.time }
    requires here { IsAt station.old board.old }
    ensures through { OnOk result (IsThrough machine moment.time moment.until due_now.now board.old station.old board.new station.new) }
    ensures part { OnErr result (Partly machine moment.time moment.until due_now.now board.old station.old board.new) }
    ensures out { OnOk result (out.new.items ≡ out.old.items ++ sent_by machine moment.arrival board.old board.new) }
{
    if station.time > moment.time {
        return Ok(());
    }
    let now = station.agenda.due(moment.time);
    advance(board, now, due_now, machine, moment.time)?;
    let route = Route {
        sender: machine,
        time: moment.arrival,
    };
    send_new(alloc, out, route, board, &mut station.sent)?;
    let next = moment.time + 1;
    station.time = next + run_on(board, &station.agenda, next, moment.until);
    Ok(())
}

/// A tick of all machines but those that are ahead of it.
fn tick_all(
    alloc: Global,
    boards: &mut [Board],
    stations: &mut [Station<'_>],
    due_now: &[Delivery],
    moment: Moment,
    out: &mut Vec<Delivery>,
) -> Result<(), OutOfMemory>
    requires count { length boards.old ≤ most_machines }
    requires stations { length stations.old ≡ length boards.old }
    requires limit { moment.time < most_ticks }
    requires arrival { moment.arrival ≤ most_run_ticks }
    requires until { moment.until ≤ most_ticks }
    requires later { NoneBefore moment.time stations.old }
    requires here { AreAt stations.old boards.old }
    ensures through { OnOk result (AreThrough moment.time moment.until due_now.now boards.old stations.old boards.new stations.new) }
    ensures part { OnErr result (HaveHappened moment.time moment.until due_now.now boards.old stations.old boards.new) }
    ensures out { (b : Shown) → OnOk result (out.new.items ≡ out.old.items ++ sent_by_all moment.arrival boards.old boards.new b) }
    ensures count { length boards.new ≡ length boards.old }
    ensures stations { length stations.new ≡ length stations.old }
{
    for place in 0..boards.len() {
        let board = &mut boards[place];
        let station = &mut stations[place];
        tick_one(alloc, board, station, due_now, place as u8, moment, out)?;
    }
    Ok(())
}

/// The first tick that one of these machines makes next, or another where that is earlier.
fn first_tick(stations: &[Station<'_>], until: u32) -> u32
    ensures most { result ≤ until }
    ensures each { NoneBefore result stations.now }
    ensures least { (t : ℕ) → t ≤ until → NoneBefore t stations.now → t ≤ result }
{
    let mut first = until;
    for station in stations {
        first = first.min(station.time);
    }
    first
}

/// Runs freshly booted boards for so many ticks as machines on a wire, each with its schedule. What an environment sends
/// in a tick arrives so many ticks later at the machines for which it is, behind the events of their schedules, by
/// number of the sender, of its environment, and in the order of sending. An idle machine stays as it is. After a refusal
/// each board is that of a whole number of ticks, and of some first events of the next.
pub fn wire(
    alloc: Global,
    boards: &mut [Board],
    schedules: &[Vec<Event>],
    delay: u32,
    ticks: u32,
) -> Result<(), OutOfMemory>
    requires some { 1 ≤ length boards.old }
    requires count { length boards.old ≤ most_machines }
    requires schedules { length schedules.now ≡ length boards.old }
    requires fresh { (i : ℕ) (b : Shown) → i < length boards.old → IsFresh (get_or boards.old i b) }
    requires order { (i : ℕ) (v : Vec EventValue Global) → i < length boards.old → are_in_order 0 (get_or schedules.now i v).items ≡ true }
    requires delay_least { 1 ≤ delay }
    requires delay_most { delay ≤ most_delay }
    requires limit { ticks ≤ most_wire_ticks }
    ensures world { OnOk result ((net : Wire) → IsWireOf boards.old schedules.now delay net → AllShow net ticks boards.new) }
    ensures part { OnErr result ((net : Wire) → IsWireOf boards.old schedules.now delay net → AllCameSoFar net ticks boards.new) }
    ensures count { length boards.new ≡ length boards.old }
{
    law_agenda();
    law_settled();
    law_tick();
    law_time();
    let mut stations = stations_of(alloc, boards, schedules)?;
    let mut under_way = VecDeque::new(alloc);
    let mut time = 0;
    while time < ticks {
        let arrival = time + delay;
        let due_now = take_due(alloc, &mut under_way, time, arrival);
        let moment = Moment {
            time,
            arrival,
            until: first_arrival(&under_way, arrival.min(ticks)),
        };
        let mut out = Vec::new(alloc);
        tick_all(alloc, boards, &mut stations, &due_now, moment, &mut out)?;
        put(&mut under_way, arrival, out)?;
        time = first_tick(&stations, moment.until);
    }
    Ok(())
}
