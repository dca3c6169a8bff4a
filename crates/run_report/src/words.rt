//! The words of a report's lines that stand for numbers.
ghost use Rattle.std.specs.Prelude.{◌≡◌};
ghost use Rattle.line_text.specs.declared.line_writing.Word.TheVariants.{Number};

use line_text::Word;

/// A number as a word.
pub(crate) fn number(n: u32) -> Word<'static>
    ensures { result ≡ Number n }
{
    Word::Number(u64::from(n))
}

/// An environment's number as a word.
pub(crate) fn env(env: u8) -> Word<'static>
    ensures { result ≡ Number env }
{
    Word::Number(u64::from(env))
}
