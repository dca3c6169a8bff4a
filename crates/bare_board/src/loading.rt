//! The file in physical memory.
ghost use Rattle.std.specs.Prelude.{◌≡◌, ◌≤◌, ◌*◌, take, drop, length, IfOk};
ghost use Rattle.aegis_limits.specs.Limits.{page_size};
ghost use Rattle.bare_board.specs.Loading.{bare_pages, loaded};

use aegis_limits::{OutOfMemory, PAGE_SIZE};
use frame_store::Frames;
use std::alloc::Global;

/// The pages of physical memory.
pub(crate) const BARE_PAGES: u32 = 64;

/// The bytes of physical memory.
pub(crate) const RAM_SIZE: usize = BARE_PAGES as usize * PAGE_SIZE;

/// The part of the file that is in the page with this number.
fn page_part(file: &[u8], n: u32) -> &[u8]
    ensures part { result.now ≡ take page_size (drop (n * page_size) file.now) }
    ensures within { length result.now ≤ page_size }
{
    let start = n as usize * PAGE_SIZE;
    let rest = &file[start.min(file.len())..];
    &rest[..PAGE_SIZE.min(rest.len())]
}

/// Physical memory with a file at address 0; what is behind its last page is left out.
pub(crate) fn load(alloc: Global, file: &[u8]) -> Result<Frames, OutOfMemory>
    ensures loaded { IfOk result (λ frames. frames ≡ loaded file.now) }
    ensures size { IfOk result (λ frames. length frames ≡ bare_pages) }
{
    let mut frames = Frames::new(alloc, BARE_PAGES)?;
    for n in 0..BARE_PAGES {
        frames.put(n, 0, page_part(file, n));
    }
    Ok(frames)
}
