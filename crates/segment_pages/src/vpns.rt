//! The VPNs of a program's pages.
ghost use Rattle.std.specs.Prelude.{◌≡◌, ◌≤◌, ◌<◌, ◌+◌, [], ◌∷◌, ◌&&◌, length, IfSome, IfNone};
ghost use Rattle.std.specs.List.{list_any, AllByRecursion};
ghost use Rattle.elf_static.specs.AcceptedElf.{IsSegment};
ghost use Rattle.elf_static.specs.SegmentSeen.{segment_seen, segments_seen};
ghost use Rattle.segment_pages.specs.FirstPage.{IsFirstPage, lesser};
ghost use Rattle.segment_pages.specs.Pages.{pages_from, vpns, touches, is_writable};

use aegis_limits::PAGE_SIZE;
use elf_static::{Elf, Segment};

/// The bytes of a page, as a number of addresses.
const PAGE: u32 = PAGE_SIZE as u32;

/// The VPN of the first page, from `first` on, in which the program has a byte.
pub fn next_page(program: &Elf<'_>, first: u32) -> Option<u32>
    ensures some { IfSome result (λ vpn. pages_from program.now first ≡ vpn ∷ pages_from program.now (vpn + 1)) }
    ensures range { IfSome result (λ vpn. (first ≤ vpn) × (2 ≤ vpn) × (vpn < 0x7FF00)) }
    ensures none { IfNone result (pages_from program.now first ≡ []) }
{
    first_of_all(program.segments.as_slice(), first)
}

/// The VPN of the first page, from `first` on, in which one of the segments has a byte.
fn first_of_all(segments: &[Segment<'_>], first: u32) -> Option<u32>
    requires { AllByRecursion IsSegment (segments_seen segments.now) }
    ensures { IsFirstPage first (segments_seen segments.now) result }
{
    let mut least = None;
    for segment in segments {
        least = lesser(least, first_of(segment, first));
    }
    least
}

/// The VPN of the first page, from `first` on, in which the segment has a byte.
fn first_of(segment: &Segment<'_>, first: u32) -> Option<u32>
    requires { IsSegment (segment_seen segment.now) }
    ensures { IsFirstPage first (segment_seen segment.now ∷ []) result }
{
    let last = (segment.vaddr + (segment.memsz - 1)) / PAGE;
    let vpn = first.max(segment.vaddr / PAGE);
    if vpn <= last { Some(vpn) } else { None }
}

/// The lesser of two numbers, or the only one.
fn lesser(one: Option<u32>, other: Option<u32>) -> Option<u32>
    ensures { result ≡ lesser one other }
{
    match (one, other) {
        (Some(a), Some(b)) => Some(a.min(b)),
        (Some(a), None) => Some(a),
        (None, b) => b,
    }
}

/// How many pages the program has, where these are at most `most`.
pub fn count_pages(program: &Elf<'_>, most: u32) -> Option<u32>
    ensures some { IfSome result (λ count. (count ≡ length (vpns program.now)) × (count ≤ most)) }
    ensures none { IfNone result (most < length (vpns program.now)) }
{
    let mut count = 0;
    let mut first = 0;
    while let Some(vpn) = next_page(program, first) {
        if count == most {
            return None;
        }
        count += 1;
        first = vpn + 1;
    }
    Some(count)
}

/// Whether stores into the page of this VPN are allowed.
pub fn is_writable(program: &Elf<'_>, vpn: u32) -> bool
    ensures { result ≡ is_writable program.now vpn }
{
    is_any_writable(program.segments.as_slice(), vpn)
}

/// Whether a segment that has a byte in the page of this VPN is one into which stores are allowed.
fn is_any_writable(segments: &[Segment<'_>], vpn: u32) -> bool
    ensures { result ≡ list_any (λ segment. touches vpn segment && segment.writable) (segments_seen segments.now) }
{
    segments
        .iter()
        .any(|segment| touches(segment, vpn) && segment.writable)
}

/// Whether the segment has a byte in the page of this VPN.
fn touches(segment: &Segment<'_>, vpn: u32) -> bool
    ensures { result ≡ touches vpn (segment_seen segment.now) }
{
    let page = u64::from(PAGE);
    let vpn = u64::from(vpn);
    let vaddr = u64::from(segment.vaddr);
    vaddr.max(page * vpn) < (vaddr + u64::from(segment.memsz)).min(page * (vpn + 1))
}
