//! The run of a handler.
ghost use Rattle.std.specs.Prelude.{◌≡◌};
ghost use Rattle.handler_rules.specs.Running.{handler_run};

use crate::replies::Replies;
use crate::step::{entry_cpu, step_handler};
use aegis_limits::PAGE_SIZE;
use filter_core::Packet;
use handler_rules::{Handler, HandlerEnd};

/// Runs a handler over a packet, which the claim `id` gets, and the ring page. What `replies` had is gone.
/// `docs/KERNEL.md`, "Handlers of packets", says what it reaches.
#[tactic(auto, unfolding(handler_rules::specs::Running::handler_run))]
pub fn run_handler(
    handler: &Handler,
    packet: &Packet<'_>,
    id: u32,
    page: &mut [u8; PAGE_SIZE],
    replies: &mut Replies,
) -> HandlerEnd
    ensures page { page.new ≡ (handler_run handler.now packet.now id page.old).page }
    ensures replies { replies.new ≡ (handler_run handler.now packet.now id page.old).replies }
    ensures end { result ≡ (handler_run handler.now packet.now id page.old).end }
{
    let words = handler.words();
    let bytes = packet.bytes();
    replies.clear();
    let mut cpu = entry_cpu(bytes.len() as u32, id);
    for _ in 0..words.len() {
        if let Some(end) = step_handler(words, bytes, &mut cpu, page, replies) {
            return end;
        }
    }
    HandlerEnd::Done
}
