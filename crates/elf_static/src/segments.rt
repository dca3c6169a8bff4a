//! The program headers, and the segments that they describe.
ghost use Rattle.std.specs.Prelude.{◌≡◌, ◌+◌, ◌*◌, ◌<◌, ◌≤◌, ◌^◌, ◌%◌, ◌==◌, ◌&&◌, [], true, length, IfErr};
ghost use Rattle.std.specs.List.{list_any};
ghost use Rattle.elf_static.specs.ElfValue.{headers_from, kept_at, segments_of, segment_at};
ghost use Rattle.elf_static.specs.ElfFaults.{header_fault, headers_fault, is_in_range, is_covered, meets};
ghost use Rattle.elf_static.specs.Faulting.{Answers};
ghost use Rattle.elf_static.specs.SegmentSeen.{kept_seen, segment_seen, segments_seen};

use crate::fault::{ElfFault, ElfWhy};
use crate::header::Table;
use crate::layout::{DYNAMIC, INTERPRETER, LOADED, PROGRAM_HEADER_SIZE, WRITE};
use crate::segment::{LEAST_VADDR, Segment};
use arrayvec::ArrayVec;
use byte_numbers::word_at;

/// Where the offset of the segment's bytes stands in its header, behind the type.
const OFFSET_AT: usize = 4;
/// Where the virtual address stands, before the physical one.
const VADDR_AT: usize = 8;
/// Where the number of bytes in the file stands.
const FILESZ_AT: usize = 16;
/// Where the number of bytes in memory stands.
const MEMSZ_AT: usize = 20;
/// Where the flags stand.
const FLAGS_AT: usize = 24;

/// The end of the addresses at which a segment may stand.
const SEGMENT_LIMIT: u64 = 0x7FF0_0000;

/// The segments of the program headers in the table.
pub(crate) fn read_segments(
    file: &[u8],
    table: Table,
) -> Result<ArrayVec<Segment<'_>, 64>, ElfFault>
    requires small { length file.now < 2 ^ 27 }
    requires most { table.count ≤ 64 }
    requires within { table.first + 32 * table.count ≤ length file.now }
    ensures answer { Answers (λ segments. segments_seen segments.items) result
        (headers_fault file.now [] (headers_from table.count table.first)) (segments_of file.now (headers_from table.count table.first)) }
    ensures place { IfErr result (λ fault. fault.place ≤ length file.now) }
{
    let mut segments = ArrayVec::new();
    let mut header = table.first as usize;
    for _ in 0..table.count {
        if let Some(segment) = read_segment(file, header, &segments)? {
            segments.push(segment);
        }
        header += PROGRAM_HEADER_SIZE;
    }
    Ok(segments)
}

/// The segment whose header stands at `header`, where it is one that is loaded and has bytes in memory.
#[tactic(auto, unfolding(crate::specs::ElfFaults::header_fault, crate::specs::ElfValue::segment_at))]
fn read_segment<'a>(
    file: &'a [u8],
    header: usize,
    earlier: &[Segment<'_>],
) -> Result<Option<Segment<'a>>, ElfFault>
    requires small { length file.now < 2 ^ 27 }
    requires within { header + 32 ≤ length file.now }
    ensures answer { Answers kept_seen result (header_fault file.now (segments_seen earlier.now) header) (kept_at file.now header) }
    ensures place { IfErr result (λ fault. fault.place ≤ length file.now) }
{
    let kind = word_at(file, header);
    if kind == DYNAMIC || kind == INTERPRETER {
        return Err(ElfFault::at(ElfWhy::Dynamic, header));
    }
    if kind != LOADED {
        return Ok(None);
    }
    if !is_in_range(file, header) {
        return Err(ElfFault::at(ElfWhy::BadRange, header));
    }
    let segment = segment_at(file, header);
    if meets_any(&segment, earlier) {
        return Err(ElfFault::at(ElfWhy::Overlap, header));
    }
    if segment.memsz == 0 {
        return Ok(None);
    }
    Ok(Some(segment))
}

/// Whether the bytes of the segment with this header lie within the file, and in the range of programs.
fn is_in_range(file: &[u8], header: usize) -> bool
    requires { header + 32 ≤ length file.now }
    ensures { result ≡ is_in_range file.now header }
{
    let offset = word_at(file, header + OFFSET_AT);
    let filesz = word_at(file, header + FILESZ_AT);
    let vaddr = word_at(file, header + VADDR_AT);
    let memsz = word_at(file, header + MEMSZ_AT);
    let end = u64::from(vaddr) + u64::from(memsz);
    filesz <= memsz
        && offset as usize + filesz as usize <= file.len()
        && (memsz == 0 || (vaddr >= LEAST_VADDR && end <= SEGMENT_LIMIT))
}

/// The segment with this header, whose bytes lie within the file.
#[tactic(auto, unfolding(crate::specs::ElfValue::segment_at))]
fn segment_at(file: &[u8], header: usize) -> Segment<'_>
    requires header { header + 32 ≤ length file.now }
    requires bytes { is_in_range file.now header ≡ true }
    ensures { segment_seen result ≡ segment_at file.now header }
{
    let offset = word_at(file, header + OFFSET_AT) as usize;
    let filesz = word_at(file, header + FILESZ_AT) as usize;
    Segment {
        vaddr: word_at(file, header + VADDR_AT),
        bytes: &file[offset..offset + filesz],
        memsz: word_at(file, header + MEMSZ_AT),
        writable: word_at(file, header + FLAGS_AT) / WRITE % 2 == 1,
    }
}

/// Whether the segment has a byte at the address of a byte of another.
fn meets_any(segment: &Segment<'_>, others: &[Segment<'_>]) -> bool
    ensures { result ≡ list_any (meets (segment_seen segment.now)) (segments_seen others.now) }
{
    others.iter().any(|other| meets(segment, other))
}

/// Whether two segments have bytes at one address.
fn meets(one: &Segment<'_>, other: &Segment<'_>) -> bool
    ensures { result ≡ meets (segment_seen one.now) (segment_seen other.now) }
{
    let start = one.vaddr.max(other.vaddr);
    u64::from(start) < one.end().min(other.end())
}

/// Whether an entry is the address of an instruction in one of the segments.
pub(crate) fn is_entry(entry: u32, segments: &[Segment<'_>]) -> bool
    ensures { result ≡ ((entry % 4 == 0) && list_any (is_covered entry) (segments_seen segments.now)) }
{
    entry.is_multiple_of(4) && is_in_any(entry, segments)
}

/// Whether the address is that of a byte of one of the segments.
fn is_in_any(address: u32, segments: &[Segment<'_>]) -> bool
    ensures { result ≡ list_any (is_covered address) (segments_seen segments.now) }
{
    segments.iter().any(|segment| covers(segment, address))
}

/// Whether the address is that of a byte of the segment.
fn covers(segment: &Segment<'_>, address: u32) -> bool
    ensures { result ≡ is_covered address (segment_seen segment.now) }
{
    segment.vaddr <= address && u64::from(address) < segment.end()
}
