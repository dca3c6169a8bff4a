//! What the runner puts out: bytes on its console, and packets.
ghost use Rattle.std.specs.Prelude.{◌≡◌, ◌<◌, ◌≤◌, ◌+◌, is_some, length, true};
ghost use Rattle.std.specs.Option.{option_map};
ghost use Rattle.aegis_limits.specs.Limits.{console_size};
ghost use Rattle.external_event.specs.Limits.{most_packet_size, most_sent};
ghost use Rattle.guest_memory.specs.Look.{look};
ghost use Rattle.guest_memory.specs.Space.{lookup};
ghost use Rattle.world_model.specs.Call.{good_range};
ghost use Rattle.world_model.specs.OwnCalls.{put_bytes as bytes_to_put};
ghost use Rattle.board_model.specs.Shown.{console_of, sent_of};
ghost use Rattle.board_acts.specs.Parts.{look_in, roster_after_put, roster_after_send};

use crate::reading::space_in;
use bind_book::Bindings;
use board_model::Roster;
use frame_store::Frames;
use guest_memory::{Space, guest_range};

/// The bytes of a put, so many from an address on, if their range is good; none need no range.
fn put_bytes<'a>(frames: &'a Frames, space: &Space<'_>, address: u32, size: u32) -> Option<&'a [u8]>
    ensures { option_map (λ r. r.now) result ≡ bytes_to_put (look frames.now (lookup space.now)) address size }
{
    if size == 0 {
        return Some(&[]);
    }
    guest_range(frames, space, address, size)
}

/// Appends bytes of an environment's memory, so many from an address on, to its console.
pub fn put(
    roster: &mut Roster,
    frames: &Frames,
    bindings: &Bindings,
    env: u8,
    address: u32,
    size: u32,
)
    requires there { env < length roster.old.list }
    requires good { is_some (bytes_to_put (look_in frames.now bindings.now roster.old.list env) address size) ≡ true }
    requires room { length (console_of roster.old.list env) + size ≤ console_size }
    ensures { roster.new ≡ roster_after_put (look_in frames.now bindings.now roster.old.list env) roster.old env address size }
{
    let space = space_in(roster, bindings, env);
    let bytes = put_bytes(frames, &space, address, size).unwrap();
    roster.put(env, bytes);
}

/// Sends bytes of an environment's memory, so many from an address on, as a packet.
pub fn send(
    roster: &mut Roster,
    frames: &Frames,
    bindings: &Bindings,
    env: u8,
    address: u32,
    size: u32,
)
    requires there { env < length roster.old.list }
    requires most { size ≤ most_packet_size }
    requires good { is_some (good_range (look_in frames.now bindings.now roster.old.list env) address size) ≡ true }
    requires room { length (sent_of roster.old.list env) < most_sent }
    ensures { roster.new ≡ roster_after_send (look_in frames.now bindings.now roster.old.list env) roster.old env address size }
{
    let space = space_in(roster, bindings, env);
    let bytes = guest_range(frames, &space, address, size).unwrap();
    roster.send(env, bytes);
}
