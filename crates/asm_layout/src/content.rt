//! What statements put into their sections.

use crate::draft::Draft;
use crate::number::NumberSize;
use asm_parse::Expression;

/// What a statement puts into its section.
#[derive(Drop)]
pub enum Content<'a> {
    /// An instruction, or two of them.
    Instruction(Draft<'a>),
    /// A number for each expression.
    Numbers(NumberSize, Vec<Expression<'a>>),
    /// Bytes.
    Bytes(Vec<u8>),
    /// So many zeros, none of them where the statement puts nothing.
    Zeros(u32),
}

impl<'a> Content<'a> {
    ghost use Rattle.std.specs.Prelude.{◌≡◌, ◌-◌, ◌<◌, ◌^◌, min};
    ghost use Rattle.asm_layout.specs.Content.{alignment, content_length};
    ghost use Rattle.asm_layout.specs.Seen.{content_seen};

    /// What its place is a multiple of.
    pub(crate) fn alignment(&self) -> u32
        ensures value { result ≡ alignment (content_seen self.now) }
        ensures some { 0 < result }
    {
        match self {
            Content::Instruction(_) => 4,
            Content::Numbers(size, _) => size.length(),
            Content::Bytes(_) => 1,
            Content::Zeros(_) => 1,
        }
    }

    /// How many bytes it takes, up to 2^64 - 1.
    pub(crate) fn length(&self) -> usize
        ensures { result ≡ min (content_length (content_seen self.now)) (2 ^ 64 - 1) }
    {
        match self {
            Content::Instruction(draft) => draft.length() as usize,
            Content::Numbers(size, numbers) => numbers.len().saturating_mul(size.length() as usize),
            Content::Bytes(bytes) => bytes.len(),
            Content::Zeros(count) => *count as usize,
        }
    }
}
