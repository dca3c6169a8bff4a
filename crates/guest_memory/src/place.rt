//! The mapping that an access goes through, or what the access raises.
ghost use Rattle.std.specs.Prelude.{◌≡◌, ◌/◌, None, MatchOption};
ghost use Rattle.world_model.specs.Page.{reach};
ghost use Rattle.aegis_limits.specs.Limits.{page_size};
ghost use Rattle.guest_memory.specs.Space.{lookup};
ghost use Rattle.guest_memory.specs.Look.{look};
ghost use Rattle.guest_memory.specs.Place.{LeadsThrough, Located};

use crate::space::Space;
use aegis_limits::PAGE_BYTES;
use env_frames::Mapping;
use frame_store::Frames;
use mips_exec::{AccessKind, Exc, ExcCode, USER_END};

/// The mapping of a VPN, where physical memory has its page.
pub(crate) fn mapping_of(frames: &Frames, space: &Space<'_>, vpn: u32) -> Option<Mapping>
    ensures { MatchOption result (look frames.now (lookup space.now) vpn ≡ None) (LeadsThrough frames.now (lookup space.now) vpn) }
{
    let mapping = space.mapping(vpn)?;
    if mapping.page < frames.pages() {
        Some(mapping)
    } else {
        None
    }
}

/// The mapping that serves an access, or what the access raises.
pub fn locate(frames: &Frames, space: &Space<'_>, kind: AccessKind, va: u32) -> Result<Mapping, Exc>
    ensures { Located frames.now (lookup space.now) (va / page_size) (reach (look frames.now (lookup space.now)) kind va) result }
{
    if va >= USER_END {
        return Err(Exc::plain(kind.address_error()).at(va));
    }
    let Some(mapping) = mapping_of(frames, space, va / PAGE_BYTES) else {
        return Err(Exc::plain(kind.miss()).at(va));
    };
    if kind.is_store() && !mapping.writable {
        return Err(Exc::plain(ExcCode::Mod).at(va));
    }
    Ok(mapping)
}
