//! The second pass: the bytes of the sections.

use crate::emission::emit;
use asm_layout::{Layout, Names, Placed, Section};
use asm_parse::AsmWhy;
use line_text::{TextFailure, at_line};
use std::alloc::Global;

/// The bytes of the sections.
#[derive(Drop)]
pub(crate) struct Sections {
    /// Of the text.
    pub(crate) text: Vec<u8>,
    /// Of the data.
    pub(crate) data_bytes: Vec<u8>,
}

impl Sections {
    ghost use Rattle.line_text.specs.Failing.{Gives};
    ghost use Rattle.asm_layout.specs.Seen.{layout_seen, placed_seen};
    ghost use Rattle.mips_asm.specs.Second.{filled, widened};
    ghost use Rattle.mips_asm.specs.Seen.{sections_seen};

    /// The sections of what the first pass has placed.
    #[tactic(auto, unfolding(crate::specs::Second::filled))]
    pub(crate) fn of(alloc: Global, layout: &Layout<'_>) -> Result<Sections, TextFailure<AsmWhy>>
        ensures { Gives sections_seen result (filled (layout_seen layout.now)) }
    {
        let mut sections = Sections {
            text: Vec::with_capacity(alloc, layout.text as usize)?,
            data_bytes: Vec::with_capacity(alloc, layout.data_bytes as usize)?,
        };
        for placed in &layout.placed {
            sections.add(alloc, &layout.names, layout.text, placed)?;
        }
        Ok(sections)
    }

    /// Adds the bytes of a statement, in a text of so many bytes.
    fn add(
        &mut self,
        alloc: Global,
        names: &Names,
        size: u32,
        placed: &Placed<'_>,
    ) -> Result<(), TextFailure<AsmWhy>>
        ensures { Gives (λ _. sections_seen self.new) result (widened names.now size (sections_seen self.old) (placed_seen placed.now)) }
    {
        let emitted = match placed.section {
            Section::Text => emit(&mut self.text, alloc, names, size, placed),
            Section::Data => emit(&mut self.data_bytes, alloc, names, size, placed),
        };
        at_line(placed.line, emitted)
    }
}
