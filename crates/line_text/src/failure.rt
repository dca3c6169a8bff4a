//! Why a reader of a text has no answer.
ghost use Rattle.std.specs.Prelude.{◌≡◌};
ghost use Rattle.line_text.specs.declared.failure.Failure.TheVariants.{Fault as IsFault, OutOfMemory as NoMemory};
ghost use Rattle.line_text.specs.Failing.{at_line, fault_at};

use crate::lines::Line;
use std::alloc::{AllocError, AllocFailed};

/// The fault of a text: its first line that breaks a rule, and that rule.
#[derive(Clone, Copy)]
pub struct LineFault<W: Copy> {
    /// The line's number, from 1.
    pub line: u32,
    /// The rule that it breaks.
    pub why: W,
}

/// Why there is no answer.
#[derive(Clone, Copy)]
pub enum Failure<F: Copy> {
    /// What is read has this fault.
    Fault(F),
    /// Memory ran out.
    OutOfMemory,
}

/// Why a text has no answer.
pub type TextFailure<W> = Failure<LineFault<W>>;

impl<'a> Line<'a> {
    /// That this line breaks a rule.
    pub fn breaks<W: Copy>(&self, why: W) -> TextFailure<W>
        ensures { result ≡ IsFault (fault_at self.now.number why) }
    {
        let line = self.number;
        Failure::Fault(LineFault { line, why })
    }
}

/// An answer, or the rule that the line of this number breaks.
pub fn at_line<T, W: Copy>(line: u32, answer: Result<T, Failure<W>>) -> Result<T, TextFailure<W>>
    ensures { result ≡ at_line line answer }
{
    match answer {
        Ok(value) => Ok(value),
        Err(Failure::Fault(why)) => Err(Failure::Fault(LineFault { line, why })),
        Err(Failure::OutOfMemory) => Err(Failure::OutOfMemory),
    }
}

impl<F: Copy> From<AllocError> for Failure<F> {
    ghost from_gives = { λ _ e. e ≡ NoMemory };

    fn from(_e: AllocError) -> Failure<F> {
        Failure::OutOfMemory
    }
}

impl<T: Drop, F: Copy> From<AllocFailed<T>> for Failure<F> {
    ghost from_gives = { λ _ e. e ≡ NoMemory };

    fn from(_e: AllocFailed<T>) -> Failure<F> {
        Failure::OutOfMemory
    }
}
