//! The bytes of a program's pages.
ghost use Rattle.std.specs.Prelude.{◌≡◌, ◌<◌, ℕ, ◌+◌, fold, slice_index};
ghost use Rattle.aegis_limits.specs.Limits.{page_size, vpn_end};
ghost use Rattle.elf_static.specs.SegmentSeen.{segment_seen, segments_seen};
ghost use Rattle.segment_pages.specs.Pages.{page_bytes, byte_over};

use aegis_limits::PAGE_SIZE;
use elf_static::{Elf, Segment};

/// Makes a page what the program has in the page of this VPN. Whatever stood there before goes.
pub fn fill_page(program: &Elf<'_>, vpn: u32, page: &mut [u8; PAGE_SIZE])
    requires { vpn < vpn_end }
    ensures { page.new ≡ page_bytes program.now vpn }
{
    fill_from(program.segments.as_slice(), PAGE_SIZE as u32 * vpn, page);
}

/// Makes a page what the segments have from an address on.
fn fill_from(segments: &[Segment<'_>], start: u32, page: &mut [u8; PAGE_SIZE])
    ensures { (k : ℕ) → k < page_size → slice_index page.new k ≡ fold (byte_over (start + k)) 0 (segments_seen segments.now) }
{
    *page = [0; PAGE_SIZE];
    for segment in segments {
        put_part(segment, start, page);
    }
}

/// Puts into the page that begins at an address what the segment's file has for it.
fn put_part(segment: &Segment<'_>, start: u32, page: &mut [u8; PAGE_SIZE])
    ensures { (k : ℕ) → k < page_size → slice_index page.new k ≡ byte_over (start + k) (slice_index page.old k) (segment_seen segment.now) }
{
    let bytes = segment.bytes;
    let at = (segment.vaddr.saturating_sub(start) as usize).min(PAGE_SIZE);
    let passed = (start.saturating_sub(segment.vaddr) as usize).min(bytes.len());
    let count = (bytes.len() - passed).min(PAGE_SIZE - at);
    page[at..at + count].copy_from_slice(&bytes[passed..passed + count]);
}
