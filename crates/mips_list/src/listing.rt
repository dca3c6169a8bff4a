//! The lines of a program.
ghost use Rattle.std.specs.Prelude.{◌≡◌, ◌+◌, ◌<◌, ◌++◌, OnOk, IfOk};
ghost use Rattle.std.specs.List.{AllByRecursion, flat_map};
ghost use Rattle.elf_static.specs.AcceptedElf.{IsSegment};
ghost use Rattle.elf_static.specs.SegmentSeen.{segment_seen, segments_seen};
ghost use Rattle.mips_list.specs.Listed.{lead, line_text, listed, segment_lines, word_lines};

use crate::word::push_word_text;
use aegis_limits::OutOfMemory;
use byte_numbers::word_at;
use elf_static::{Elf, Segment};
use line_text::{Word, end_line, push_spaced, push_word};
use std::alloc::Global;

/// The bytes of a word.
const WORD_SIZE: usize = 4;

/// The listing of a program (`docs/ASSEMBLER.md`, "Listings"): for each of its read-only segments in
/// order, and each whole word that the file gives at an address that is a multiple of 4, a line with the
/// address, the word and the word's text. The error is that memory ran out.
#[tactic(auto, unfolding(crate::specs::Listed::listed))]
pub fn list(alloc: Global, elf: &Elf<'_>) -> Result<Vec<u8>, OutOfMemory>
    ensures { IfOk result (λ text. text.items ≡ listed elf.now) }
{
    let mut text = Vec::new(alloc);
    let _ = &elf.segments;
    push_segments(&elf.segments, &mut text)?;
    Ok(text)
}

/// Appends the lines of segments.
fn push_segments(segments: &[Segment<'_>], out: &mut Vec<u8>) -> Result<(), OutOfMemory>
    requires { AllByRecursion IsSegment (segments_seen segments.now) }
    ensures { OnOk result (out.new.items ≡ out.old.items ++ flat_map segment_lines (segments_seen segments.now)) }
{
    for segment in segments {
        push_segment(segment, out)?;
    }
    Ok(())
}

/// Appends the lines of a segment.
fn push_segment(segment: &Segment<'_>, out: &mut Vec<u8>) -> Result<(), OutOfMemory>
    requires { IsSegment (segment_seen segment.now) }
    ensures { OnOk result (out.new.items ≡ out.old.items ++ segment_lines (segment_seen segment.now)) }
{
    if segment.writable {
        return Ok(());
    }
    push_words(segment, out)
}

/// Appends the lines of a segment's words.
#[tactic(auto, using(crate::proofs::Lines::lines_more))]
fn push_words(segment: &Segment<'_>, out: &mut Vec<u8>) -> Result<(), OutOfMemory>
    requires { IsSegment (segment_seen segment.now) }
    ensures { OnOk result (out.new.items ≡ out.old.items ++ word_lines (segment_seen segment.now)) }
{
    let first = lead(segment.vaddr);
    let count = segment.bytes.len().saturating_sub(first) / WORD_SIZE;
    for k in 0..count {
        let place = first + WORD_SIZE * k;
        let address = segment.vaddr + place as u32;
        push_line(address, word_at(segment.bytes, place), out)?;
    }
    Ok(())
}

/// How many bytes stand before the first address that is a multiple of 4.
fn lead(vaddr: u32) -> usize
    ensures { result ≡ lead vaddr }
{
    (WORD_SIZE - vaddr as usize % WORD_SIZE) % WORD_SIZE
}

/// Appends the line of a word at an address.
#[tactic(auto, using(crate::proofs::Lines::three_words), unfolding(crate::specs::Listed::line_text))]
fn push_line(address: u32, word: u32, out: &mut Vec<u8>) -> Result<(), OutOfMemory>
    ensures { OnOk result (out.new.items ≡ out.old.items ++ line_text address word) }
{
    push_word(out, Word::Hexadecimal(address))?;
    push_spaced(out, Word::Hexadecimal(word))?;
    push_word(out, Word::Text(b" "))?;
    push_word_text(word, address, out)?;
    end_line(out)
}
