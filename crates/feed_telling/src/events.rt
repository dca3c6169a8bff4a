//! What is given by what happens from outside.
ghost use Rattle.std.specs.Prelude.{◌≡◌, ◌≤◌, OnOk, true};
ghost use Rattle.aegis_limits.specs.Limits.{most_ticks};
ghost use Rattle.external_event.specs.EventValue.{is_occurrence};
ghost use Rattle.world_model.specs.ClaimCalls.{claim_of};
ghost use Rattle.world_model.specs.Event.{arrives, happen as event_phase};
ghost use Rattle.feed_telling.specs.Tell.{AreTold};

use crate::deeds::tell_revocation;
use crate::items::{tell_line, tell_packet};
use crate::losses::tell_store;
use crate::view::FeedView;
use aegis_limits::OutOfMemory;
use external_event::{Occurrence, PacketBytes};
use feed_log::FeedLog;

/// Tells a packet to the environment whose claim it goes to, and what it leaves in the ring page to whoever else owns that
/// or has bound it.
fn tell_arrival<V: FeedView>(
    view: &V,
    log: &mut FeedLog,
    watched: u8,
    packet: &PacketBytes,
) -> Result<(), OutOfMemory>
    ensures { OnOk result (AreTold log.old log.new ((arrives packet.now (claim_of (V.world view.now).book packet.now) (V.world view.now)).items watched)) }
{
    let Some(arrival) = view.arrival(packet) else {
        return Ok(());
    };
    if watched == arrival.env {
        return tell_packet(log, arrival.claim, packet.bytes());
    }
    match view.page_left(packet) {
        Some(page) => tell_store(view, log, watched, arrival.env, arrival.page, 0, &page),
        None => Ok(()),
    }
}

/// Tells what an event gives to an environment, before it happens.
pub fn tell_event<V: FeedView>(
    view: &V,
    log: &mut FeedLog,
    watched: u8,
    what: &Occurrence,
) -> Result<(), OutOfMemory>
    requires event { is_occurrence what.now ≡ true }
    requires time { (V.world view.now).book.time ≤ most_ticks }
    ensures { OnOk result (AreTold log.old log.new ((event_phase what.now (V.world view.now)).items watched)) }
{
    match what {
        Occurrence::Packet(packet) => tell_arrival(view, log, watched, packet),
        Occurrence::Line(line) => match view.line_owner(*line) {
            Some(owner) if owner == watched => tell_line(log, *line),
            _ => Ok(()),
        },
        Occurrence::Revoke { env, count, grace } => {
            let deadline = view.time() + *grace;
            tell_revocation(view, log, watched, *env, *count, deadline)
        }
    }
}
