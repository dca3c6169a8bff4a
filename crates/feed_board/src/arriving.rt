//! Where a packet goes, and what it leaves of the ring page.
ghost use Rattle.std.specs.Prelude.{◌≡◌, ◌<◌, find, length};
ghost use Rattle.std.specs.Option.{option_map};
ghost use Rattle.frame_store.specs.Pages.{page_at};
ghost use Rattle.filter_tree.specs.ClaimBook.{claims_in};
ghost use Rattle.filter_tree.specs.Claims.{claim_handler, is_for};
ghost use Rattle.board_model.specs.Showing.{world_of};
ghost use Rattle.board_acts.specs.Delivery.{claim_run};
ghost use Rattle.feed_telling.specs.Arriving.{arrival_by, page_left_by};
ghost use Rattle.feed_board.specs.Arriving.{page_queued, page_left_of};

use crate::ring_page::{copy_of, put_packet};
use aegis_calls::Board;
use aegis_limits::PAGE_SIZE;
use external_event::PacketBytes;
use feed_telling::Arrival;
use filter_core::Packet;
use filter_tree::{Claim, Claims, law_numbered};
use frame_store::Frames;
use handler_rules::Handler;
use packet_ring::is_full;
use safe_handler::{Replies, run_handler};

/// The claim to which a packet goes, if anybody claims it.
pub(crate) fn arrival(claims: &Claims, packet: &PacketBytes) -> Option<Arrival>
    ensures { result ≡ option_map arrival_by (find (is_for packet.now) (claims_in claims.now)) }
{
    let claim = claims.claim_for(&Packet::of(packet))?;
    Some(Arrival {
        env: claim.env,
        claim: claim.id,
        page: claim.page,
    })
}

/// All bytes of a claim's ring page behind a packet that no handler takes; none where the buffer whose turn it is is full.
fn queued(frames: &Frames, claim: Claim, packet: &PacketBytes) -> Option<[u8; PAGE_SIZE]>
    requires { claim.page < length frames.now }
    ensures { result ≡ page_queued claim packet.now (page_at frames.now claim.page) }
{
    if is_full(frames, claim.page, claim.next) {
        return None;
    }
    let mut page = copy_of(frames, claim.page);
    put_packet(&mut page, claim.next, packet);
    Some(page)
}

/// All bytes of a claim's ring page behind a packet that the claim's handler takes.
fn handled(handler: &Handler, frames: &Frames, claim: Claim, packet: &Packet<'_>) -> [u8; PAGE_SIZE]
    requires { claim.page < length frames.now }
    ensures { result ≡ (claim_run frames.now claim packet.now handler.now).page }
{
    let mut page = copy_of(frames, claim.page);
    let mut replies = Replies::new();
    let _end = run_handler(handler, packet, claim.id, &mut page, &mut replies);
    page
}

/// All bytes of a claim's ring page behind a packet for it; none where the packet is lost.
fn left_behind(
    frames: &Frames,
    claims: &Claims,
    claim: Claim,
    packet: &PacketBytes,
) -> Option<[u8; PAGE_SIZE]>
    requires { claim.page < length frames.now }
    ensures { result ≡ page_left_of (claim_handler claims.now claim.id) claim packet.now (page_at frames.now claim.page) }
{
    match claims.handler(claim.id) {
        Some(handler) => Some(handled(handler, frames, claim, &Packet::of(packet))),
        None => queued(frames, claim, packet),
    }
}

/// All bytes of the ring page behind a packet; none where nobody claims it, or it is lost.
pub(crate) fn page_left(board: &Board, packet: &PacketBytes) -> Option<[u8; PAGE_SIZE]>
    ensures { result ≡ page_left_by (world_of board.now) packet.now }
{
    board.law_sound();
    board.claims().law_numbers();
    law_numbered();
    let claim = board.claims().claim_for(&Packet::of(packet))?;
    left_behind(board.frames(), board.claims(), claim, packet)
}
