//! Why a source can't be assembled.
ghost use Rattle.line_text.specs.declared.failure.Failure.TheVariants.{Fault as IsFault};
ghost use Rattle.asm_parse.specs.Why.{why_text};
ghost use Rattle.std.specs.Prelude.{◌≡◌};

use line_text::Failure;

/// What is wrong in a line. The faults are described in `docs/ASSEMBLER.md`.
#[derive(Clone, Copy)]
pub enum AsmWhy {
    /// The line, or an operand, has another form.
    Syntax,
    /// There is no such operation, directive or register.
    UnknownName,
    /// The name has a value already.
    Redefined,
    /// The name has no value.
    Undefined,
    /// A value or a section is out of its range.
    OutOfRange,
    /// A place or a target isn't a multiple of what it must be.
    Unaligned,
    /// There is no byte of text.
    Empty,
}

impl AsmWhy {
    /// The name that is printed.
    pub fn name(self) -> &'static str
        ensures { result.now ≡ why_text self }
    {
        match self {
            AsmWhy::Syntax => "Syntax",
            AsmWhy::UnknownName => "UnknownName",
            AsmWhy::Redefined => "Redefined",
            AsmWhy::Undefined => "Undefined",
            AsmWhy::OutOfRange => "OutOfRange",
            AsmWhy::Unaligned => "Unaligned",
            AsmWhy::Empty => "Empty",
        }
    }
}

impl From<AsmWhy> for Failure<AsmWhy> {
    ghost from_gives = { λ why e. e ≡ IsFault why };

    fn from(why: AsmWhy) -> Failure<AsmWhy> {
        Failure::Fault(why)
    }
}
