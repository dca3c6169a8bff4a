//! How much room a report wants, so that its text is written into one buffer that never grows. Each line is counted by the
//! most bytes that it may have, so the room is enough; nothing depends on it but how often memory is asked for.
ghost use Rattle.std.specs.Prelude.{◌≡◌, ◌<◌, length};
ghost use Rattle.run_report.specs.Room.{environment_room, packet_room, report_room, within_usize};

use aegis_limits::MOST_STRIPE_ROWS;
use world_model::WorldView;

/// The most bytes of a row's line: a name of five letters, a time of seven digits, and up to three more numbers.
const ROW: usize = 48;

/// The most bytes of what an environment has once: its life, the ends of its console's line, registers, excess and sums.
const ENVIRONMENT: usize = 640;

/// The most bytes of a page's line, with its fingerprint.
const PAGE: usize = 96;

/// The most bytes of a binding's line.
const BINDING: usize = 32;

/// The most bytes of the lines of an environment's bindings: those of its stripe.
const BINDINGS: usize = MOST_STRIPE_ROWS as usize * BINDING;

/// The most bytes of a byte of a console, as it is quoted.
const QUOTED: usize = 4;

/// The most bytes of the line of a packet that was sent, beside its digits; and the digits of a byte.
const SENT: usize = 24;

const DIGITS: usize = 2;

/// The first line, how the run ended, and the last line.
const FRAME: usize = 64;

/// The room for the line of a packet that was sent.
fn packet_room(packet: &[u8]) -> usize
    ensures { result ≡ within_usize (packet_room packet.now) }
{
    packet.len().saturating_mul(DIGITS).saturating_add(SENT)
}

/// The room for the lines of an environment, but for those of pages that it allocated.
#[tactic(auto, unfolding(crate::specs::Room::environment_room))]
fn environment_room<V: WorldView>(view: &V, env: u8) -> usize
    requires { env < (V.world view.now).count }
    ensures { result ≡ within_usize (environment_room ((V.world view.now).solos env)) }
{
    let console = view.console(env).len().saturating_mul(QUOTED);
    let pages = view.kept_count(env).saturating_mul(PAGE);
    let mut room = (ENVIRONMENT + BINDINGS)
        .saturating_add(console)
        .saturating_add(pages);
    for place in 0..view.sent_count(env) {
        if let Some(packet) = view.sent_packet(env, place) {
            room = room.saturating_add(packet_room(packet));
        }
    }
    room
}

/// At least as many bytes as the report has.
#[tactic(auto, unfolding(crate::specs::Room::report_room))]
pub(crate) fn room<V: WorldView>(view: &V) -> usize
    ensures { result ≡ within_usize (report_room (V.world view.now)) }
{
    let rows = view.journal().len().saturating_mul(ROW);
    let pages = (view.page_count() as usize).saturating_mul(PAGE);
    let mut room = FRAME.saturating_add(rows).saturating_add(pages);
    for env in 0..view.envs() {
        room = room.saturating_add(environment_room(view, env));
    }
    room
}
