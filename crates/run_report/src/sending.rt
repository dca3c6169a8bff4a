//! The packets that a report shows: those that an environment sent.
ghost use Rattle.std.specs.Prelude.{◌≡◌, ◌++◌, ◌<◌, OnOk};
ghost use Rattle.run_report.specs.Report.{sent_line, sent_lines};

use crate::words::env;
use aegis_limits::OutOfMemory;
use line_text::{Word, push_line};
use world_model::WorldView;

/// Appends the line of a packet.
#[tactic(auto, unfolding(crate::specs::Report::sent_line, line_text::specs::WrittenLine::line_of))]
fn push_sent_line(out: &mut Vec<u8>, who: u8, packet: &[u8]) -> Result<(), OutOfMemory>
    ensures { OnOk result (out.new.items ≡ out.old.items ++ sent_line who packet.now) }
{
    let length = Word::Number(packet.len() as u64);
    push_line(out, b"sent", &[env(who), length, Word::Bytes(packet)])
}

/// Appends the lines of the packets that an environment sent, in their order.
pub(crate) fn push_sent_lines<V: WorldView>(
    out: &mut Vec<u8>,
    view: &V,
    env: u8,
) -> Result<(), OutOfMemory>
    requires { env < (V.world view.now).count }
    ensures { OnOk result (out.new.items ≡ out.old.items ++ sent_lines env ((V.world view.now).solos env).sent) }
{
    for place in 0..view.sent_count(env) {
        if let Some(packet) = view.sent_packet(env, place) {
            push_sent_line(out, env, packet)?;
        }
    }
    Ok(())
}
