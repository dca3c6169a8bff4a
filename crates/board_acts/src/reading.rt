//! What is read of single parts.
ghost use Rattle.std.specs.Prelude.{◌≡◌, ◌<◌, length};
ghost use Rattle.std.specs.Option.{option_map};
ghost use Rattle.page_book.specs.Row.{is_owned_by};
ghost use Rattle.world_model.specs.Downloads.{handler_of_words};
ghost use Rattle.world_model.specs.View.{view_seen};
ghost use Rattle.board_model.specs.Showing.{page_seen};
ghost use Rattle.board_model.specs.Stretch.{plain_ticks};
ghost use Rattle.board_acts.specs.Parts.{space_in};

use bind_book::Bindings;
use board_model::Roster;
use env_frames::Mapping;
use frame_store::Frames;
use guest_memory::Space;
use handler_rules::Handler;
use page_book::PageRow;
use revocation_book::Revocations;
use slot_vector::Slots;
use world_model::PageView;

/// What an environment sees: its guaranteed mappings, and its bindings.
#[inline(always)]
pub fn space_in<'a>(roster: &'a Roster, bindings: &'a Bindings, env: u8) -> Space<'a>
    requires { env < length roster.now.list }
    ensures { result ≡ space_in bindings.now roster.now.list env }
{
    Space {
        env: roster.frame(env),
        bindings,
        number: env,
    }
}

/// Whether the page with this row is one that the environment allocated.
pub fn is_owned(row: PageRow, env: u8) -> bool
    ensures { result ≡ is_owned_by env row }
{
    match row {
        PageRow::Owned { owner, .. } => owner == env,
        PageRow::Free | PageRow::Guaranteed { .. } => false,
    }
}

/// The page that a mapping leads to.
pub fn page_behind(frames: &Frames, mapping: Mapping) -> PageView<'_>
    requires { mapping.page < length frames.now }
    ensures { view_seen result ≡ page_seen frames.now mapping }
{
    PageView {
        vpn: mapping.vpn,
        writable: mapping.writable,
        bytes: frames.page(mapping.page),
    }
}

/// A handler, but none of no words.
pub fn unless_empty(handler: &Handler) -> Option<&Handler>
    ensures { option_map (λ handler. handler.now) result ≡ handler_of_words handler.now }
{
    if handler.words().is_empty() {
        return None;
    }
    Some(handler)
}

/// How many of so many ticks come before the runner's last one, and before the next deadline.
pub fn plain_most(slots: &Slots, revocations: &Revocations, time: u32, most: u32) -> u32
    ensures { result ≡ plain_ticks slots.now revocations.now time most }
{
    let left = slots.left().saturating_sub(1);
    let early = revocations.next_deadline().saturating_sub(time);
    most.min(left).min(early)
}
