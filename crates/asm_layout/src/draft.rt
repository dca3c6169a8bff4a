//! Instructions as they are read.
ghost use Rattle.std.specs.Prelude.{◌<◌};
ghost use Rattle.asm_layout.specs.Limits.{word_limit};

use crate::reading::Reading;
use asm_parse::{Arg, AsmWhy, Expression};
use mips_text::{Field, Text};

/// An instruction with its registers, and what an expression gives to it.
#[derive(Clone, Copy)]
pub struct Draft<'a> {
    /// The word without what the expression gives.
    pub word: u32,
    /// What the expression gives.
    pub filling: Filling<'a>,
    ghost small: { word < word_limit },
}

/// What an expression gives to an instruction. It isn't a value yet.
#[derive(Clone, Copy)]
pub enum Filling<'a> {
    /// There is none, and the word is whole.
    Whole,
    /// A field of the word.
    Filled(Field, Expression<'a>),
    /// The high half of LUI, the word, and the low half of ORI behind it, of the same register.
    Halves(Expression<'a>),
}

impl<'a> Draft<'a> {
    ghost use Rattle.std.specs.Prelude.{◌≡◌, ◌<◌, ◌≤◌, length};
    ghost use Rattle.mips_text.specs.Limits.{most_operands, text_word_limit};
    ghost use Rattle.mips_text.specs.Seen.{text_seen};
    ghost use Rattle.line_text.specs.Outcome.{ok_seen};
    ghost use Rattle.asm_layout.specs.Content.{draft_length};
    ghost use Rattle.asm_layout.specs.Draft.{draft_of};
    ghost use Rattle.asm_layout.specs.Seen.{draft_seen, operands_seen};

    /// How many bytes its instructions take.
    pub(crate) fn length(&self) -> u32
        ensures { result ≡ draft_length (draft_seen self.now) }
    {
        match self.filling {
            Filling::Halves(_) => 8,
            _ => 4,
        }
    }

    /// The instruction of a text with these operands. The fault is Syntax or UnknownName.
    pub(crate) fn new(text: Text, operands: &[Arg<'a>]) -> Result<Draft<'a>, AsmWhy>
        requires small { text.word < text_word_limit }
        requires few { length text.operands.now ≤ most_operands }
        ensures { ok_seen draft_seen result ≡ draft_of (text_seen text) (operands_seen operands.now) }
    {
        let Reading { word, filling } = Reading::of(text, operands)?;
        let word = word.ok_or(AsmWhy::UnknownName)?;
        Ok(Draft { word, filling })
    }
}
