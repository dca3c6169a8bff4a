//! From a source to a program.
ghost use Rattle.std.specs.Prelude.{◌≡◌, ◌<◌, ◌^◌, length, IfOk};
ghost use Rattle.line_text.specs.Failing.{Gives};
ghost use Rattle.elf_static.specs.Seen.{object_seen};
ghost use Rattle.elf_static.specs.Writable.{IsWritable};
ghost use Rattle.asm_layout.specs.Seen.{layout_seen};
ghost use Rattle.mips_asm.specs.Assembled.{assembled, linked, program_of};
ghost use Rattle.mips_asm.specs.Seen.{sections_seen};

use crate::second::Sections;
use asm_layout::{Layout, Section, lay_out};
use asm_parse::AsmWhy;
use elf_static::{Object, Part};
use line_text::{Failure, LineFault, TextFailure};
use std::alloc::{AllocError, Global};

/// The line of the fault that a source has no byte of text.
const EMPTY_LINE: u32 = 1;

/// The program of a source in the language of `docs/ASSEMBLER.md`, or the first fault: of the first pass
/// in the order of the lines, that there is no byte of text, or of the second pass in the order of the
/// lines.
#[tactic(auto, unfolding(crate::specs::Assembled::assembled))]
pub fn assemble(alloc: Global, source: &[u8]) -> Result<Object, TextFailure<AsmWhy>>
    requires { length source.now < 2 ^ 27 }
    // The program is the one that the source means; a fault is the one that the source has.
    ensures value { Gives object_seen result (assembled source.now) }
    // The program can be written as an ELF file.
    ensures writable { IfOk result (λ object. IsWritable (object_seen object)) }
{
    linked(alloc, &lay_out(alloc, source)?)
}

/// The program of what the first pass has placed.
fn linked(alloc: Global, layout: &Layout<'_>) -> Result<Object, TextFailure<AsmWhy>>
    ensures { Gives object_seen result (linked (layout_seen layout.now)) }
{
    if layout.text == 0 {
        let line = EMPTY_LINE;
        let why = AsmWhy::Empty;
        return Err(Failure::Fault(LineFault { line, why }));
    }
    let sections = Sections::of(alloc, layout)?;
    Ok(program(alloc, layout, sections)?)
}

/// The program of sections.
fn program(alloc: Global, layout: &Layout<'_>, sections: Sections) -> Result<Object, AllocError>
    ensures { IfOk result (λ object. object_seen object ≡ program_of (layout_seen layout.now) (sections_seen sections)) }
{
    let text = Part {
        vaddr: Section::Text.base(),
        bytes: sections.text,
        writable: false,
    };
    let data_part = Part {
        vaddr: Section::Data.base(),
        bytes: sections.data_bytes,
        writable: true,
    };
    let mut parts = Vec::new(alloc);
    parts.push(text)?;
    if !data_part.bytes.is_empty() {
        parts.push(data_part)?;
    }
    let entry = layout.start.unwrap_or(Section::Text.base());
    Ok(Object { entry, parts })
}
