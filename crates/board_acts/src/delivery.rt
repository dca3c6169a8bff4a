//! Packets for claims: into rings, or to handlers.
ghost use Rattle.std.specs.Prelude.{◌≡◌, ◌<◌, IfSome, None, is_some, length, true};
ghost use Rattle.env_frames.specs.Context.{context_number};
ghost use Rattle.env_frames.specs.Frame.{page_of};
ghost use Rattle.filter_tree.specs.Claims.{claim_handler};
ghost use Rattle.frame_store.specs.Pages.{after_put};
ghost use Rattle.board_model.specs.Shown.{Shown, with_record, mappings_of, with_list};
ghost use Rattle.board_model.specs.Doing.{after_delivery_by, after_delivery, with_replies_sent};
ghost use Rattle.board_acts.specs.Delivery.{claim_run};
ghost use Rattle.board_acts.specs.Parts.{with_mail};

use board_model::Roster;
use env_frames::PostWord;
use filter_core::Packet;
use filter_tree::{Claim, Claims};
use frame_store::Frames;
use handler_rules::Handler;
use packet_ring::is_full;
use safe_handler::{Replies, law_runs_keep_limits, run_handler};

/// Runs the handler of a claim over a packet and the claim's ring page.
fn run_in(
    handler: &Handler,
    frames: &mut Frames,
    claim: Claim,
    packet: &Packet<'_>,
    replies: &mut Replies,
)
    requires { claim.page < length frames.old }
    ensures page { frames.new ≡ after_put frames.old claim.page 0 (claim_run frames.old claim packet.now handler.now).page }
    ensures size { length frames.new ≡ length frames.old }
    ensures replies { replies.new ≡ (claim_run frames.old claim packet.now handler.now).replies }
{
    law_runs_keep_limits();
    let page = frames.page_mut(claim.page).first_chunk_mut().unwrap();
    let _end = run_handler(handler, packet, claim.id, page, replies);
}

/// The replies of a handler are sent for an environment, one after another; those that find 256 packets held are
/// dropped.
fn send_replies(roster: &mut Roster, env: u8, replies: &Replies)
    requires { env < length roster.old.list }
    ensures { roster.new ≡ with_list roster.old (with_record (with_replies_sent replies.now) roster.old.list env) }
{
    roster.law_no_reply(env);
    for n in 0..replies.count() {
        roster.reply(env, replies.reply(n));
    }
}

/// A packet goes into the buffer of a claim's ring whose turn it is; if that is full, it is lost, and counted so in the
/// context page of the claim's environment.
fn queue(
    frames: &mut Frames,
    claims: &mut Claims,
    roster: &Roster,
    claim: Claim,
    packet: &Packet<'_>,
)
    requires ring { claim.page < length frames.old }
    requires there { claim.env < length roster.now.list }
    requires page { IfSome (page_of (mappings_of roster.now.list claim.env) context_number) (λ page. page < length frames.old) }
    ensures after { (b : Shown) → with_mail b frames.new claims.new roster.now ≡ after_delivery_by None (with_mail b frames.old claims.old roster.now) claim packet.now }
    ensures size { length frames.new ≡ length frames.old }
{
    if is_full(frames, claim.page, claim.next) {
        roster.frame(claim.env).count(frames, PostWord::Lost);
    } else {
        packet_ring::deliver(frames, claim.page, claim.next, packet);
        claims.delivered(claim.id);
    }
}

/// A claim's handler takes a packet: it runs over the packet and the ring page, and its replies are sent. The buffer
/// whose turn it is stays.
fn handle(
    frames: &mut Frames,
    claims: &Claims,
    roster: &mut Roster,
    claim: Claim,
    packet: &Packet<'_>,
)
    requires ring { claim.page < length frames.old }
    requires there { claim.env < length roster.old.list }
    requires handler { is_some (claim_handler claims.now claim.id) ≡ true }
    ensures after { (b : Shown) → with_mail b frames.new claims.now roster.new ≡ after_delivery_by (claim_handler claims.now claim.id) (with_mail b frames.old claims.now roster.old) claim packet.now }
    ensures size { length frames.new ≡ length frames.old }
{
    let handler = claims.handler(claim.id).unwrap();
    let mut replies = Replies::new();
    run_in(handler, frames, claim, packet, &mut replies);
    send_replies(roster, claim.env, &replies);
}

/// A packet comes for a claim. It is counted in the context page of the claim's environment. The claim's handler takes
/// it; if the claim has none, it goes into the buffer of its ring whose turn it is, or is lost.
pub fn deliver(
    frames: &mut Frames,
    claims: &mut Claims,
    roster: &mut Roster,
    claim: Claim,
    packet: &Packet<'_>,
)
    requires ring { claim.page < length frames.old }
    requires there { claim.env < length roster.old.list }
    requires page { IfSome (page_of (mappings_of roster.old.list claim.env) context_number) (λ page. page < length frames.old) }
    ensures after { (b : Shown) → with_mail b frames.new claims.new roster.new ≡ after_delivery (with_mail b frames.old claims.old roster.old) claim packet.now }
    ensures size { length frames.new ≡ length frames.old }
{
    roster.frame(claim.env).count(frames, PostWord::Packets);
    if claims.handler(claim.id).is_some() {
        handle(frames, claims, roster, claim, packet);
    } else {
        queue(frames, claims, roster, claim, packet);
    }
}
