//! What a machine puts on the wire.
ghost use Rattle.std.specs.Prelude.{◌≡◌, ◌≤◌, ◌<◌, ◌++◌, ◌∷◌, [], OnOk, length, get_or};
ghost use Rattle.aegis_limits.specs.Limits.{most_run_ticks};
ghost use Rattle.board_model.specs.Showing.{world_of};
ghost use Rattle.wire_net.specs.Sending.{all_sent_after, packets_sent, sent_after};
ghost use Rattle.wire_net.specs.Station.{AreCounted};

use crate::delivery::Delivery;
use aegis_calls::Board;
use aegis_limits::OutOfMemory;
use external_event::{Event, Occurrence, PacketBytes};
use std::alloc::Global;
use world_model::WorldView;

/// Who sends, and when it is delivered.
#[derive(Clone, Copy)]
pub(crate) struct Route {
    /// The number of the machine that sends.
    pub sender: u8,
    /// When what it sends arrives, at most `MOST_RUN_TICKS`.
    pub time: u32,
}

/// Sends a packet of these bytes, if they are one.
fn send(
    alloc: Global,
    out: &mut Vec<Delivery>,
    route: Route,
    bytes: &[u8],
) -> Result<(), OutOfMemory>
    requires { route.time ≤ most_run_ticks }
    ensures { OnOk result (out.new.items ≡ out.old.items ++ packets_sent route (bytes.now ∷ [])) }
{
    let bytes = Vec::from_slice(alloc, bytes)?;
    if let Some(packet) = PacketBytes::from_bytes(bytes) {
        let event = Event {
            time: route.time,
            what: Occurrence::Packet(packet),
        };
        out.push(Delivery {
            sender: route.sender,
            event,
        })?;
    }
    Ok(())
}

/// The packet of this place among those that an environment sent.
fn packet_at(board: &Board, env: u8, place: usize) -> &[u8]
    requires env { env < (world_of board.now).count }
    requires place { place < length ((world_of board.now).solos env).sent }
    ensures { result.now ≡ get_or ((world_of board.now).solos env).sent place [] }
{
    match board.sent_packet(env, place) {
        Some(bytes) => bytes,
        None => &[],
    }
}

/// Sends what an environment sent behind the first packets, so many.
fn send_behind(
    alloc: Global,
    out: &mut Vec<Delivery>,
    route: Route,
    board: &Board,
    env: u8,
    known: usize,
) -> Result<(), OutOfMemory>
    requires time { route.time ≤ most_run_ticks }
    requires env { env < (world_of board.now).count }
    ensures { OnOk result (out.new.items ≡ out.old.items ++ packets_sent route (sent_after board.now env known)) }
{
    for place in known..board.sent_count(env) {
        send(alloc, out, route, packet_at(board, env, place))?;
    }
    Ok(())
}

/// Sends what environments sent that isn't on the wire yet, by their numbers, and counts it.
pub(crate) fn send_new(
    alloc: Global,
    out: &mut Vec<Delivery>,
    route: Route,
    board: &Board,
    known: &mut [usize],
) -> Result<(), OutOfMemory>
    requires time { route.time ≤ most_run_ticks }
    requires envs { length known.old ≡ (world_of board.now).count }
    ensures sent { OnOk result (out.new.items ≡ out.old.items ++ packets_sent route (all_sent_after board.now known.old)) }
    ensures counted { OnOk result (AreCounted board.now known.new) }
    ensures envs { length known.new ≡ length known.old }
{
    for env in 0..board.envs() {
        let place = usize::from(env);
        send_behind(alloc, out, route, board, env, known[place])?;
        known[place] = board.sent_count(env);
    }
    Ok(())
}
