//! What is read of an environment's memory: a range that the kernel reads, and a whole page.
ghost use Rattle.std.specs.Prelude.{◌≡◌};
ghost use Rattle.std.specs.Option.{option_map};
ghost use Rattle.world_model.specs.Call.{good_range};
ghost use Rattle.world_model.specs.View.{mapped_seen};
ghost use Rattle.guest_memory.specs.Space.{lookup};
ghost use Rattle.guest_memory.specs.Look.{look};

use crate::place::mapping_of;
use crate::space::Space;
use aegis_limits::PAGE_BYTES;
use frame_store::Frames;
use mips_exec::USER_END;
use world_model::MappedView;

/// The bytes of a good range: so many from an address on, in one page that the environment sees,
/// below 0x80000000.
pub fn guest_range<'a>(
    frames: &'a Frames,
    space: &Space<'_>,
    address: u32,
    size: u32,
) -> Option<&'a [u8]>
    ensures { option_map (λ r. r.now) result ≡ good_range (look frames.now (lookup space.now)) address size }
{
    if address >= USER_END || size > PAGE_BYTES - address % PAGE_BYTES {
        return None;
    }
    let mapping = mapping_of(frames, space, address / PAGE_BYTES)?;
    Some(&frames.bytes_from(mapping.page, address)[..size as usize])
}

/// The page that an environment sees at a VPN, if one is mapped there.
pub fn guest_page<'a>(frames: &'a Frames, space: &Space<'_>, vpn: u32) -> Option<MappedView<'a>>
    ensures { option_map mapped_seen result ≡ look frames.now (lookup space.now) vpn }
{
    let mapping = mapping_of(frames, space, vpn)?;
    Some(MappedView {
        writable: mapping.writable,
        bytes: frames.page(mapping.page),
    })
}
