//! The kernel's verdicts on calls.
ghost use Rattle.std.specs.Prelude.{◌≡◌};

use crate::code::Code;

/// The code of a call that is to be made again, since another environment is asked for a page (`docs/KERNEL.md`).
pub const AGAIN: u32 = 22;

/// The kernel's verdict on a call (`docs/KERNEL.md`).
#[derive(Clone, Copy)]
pub enum Verdict {
    /// The call is refused, with a code and a value, 0 where no value is named.
    Refuse(Code, u32),
    /// No page is free: the environment of this number is asked for one, and the call is to be made again.
    Again(u8),
    /// The call is granted, with a value.
    Grant(u32),
}

/// Why a handler isn't downloaded (`docs/KERNEL.md`).
#[derive(Clone, Copy)]
pub enum HandlerNo {
    /// Its words don't stand in a good range.
    BadPointer,
    /// The word of this number, from 0, is the first that is bad; 64 where there are more than 64 words.
    BadWord(u32),
}

impl Verdict {
    ghost use Rattle.world_model.specs.Answer.{granted_unless, verdict_code, verdict_of, verdict_value};

    /// A call is granted with a value, unless there is a reason to refuse it.
    pub fn unless(refusal: Option<Code>, value: u32) -> Verdict
        ensures { result ≡ granted_unless refusal value }
    {
        match refusal {
            None => Verdict::Grant(value),
            Some(why) => Verdict::Refuse(why, 0),
        }
    }

    /// A call is granted with a value, or refused.
    pub fn of(answer: Result<u32, Code>) -> Verdict
        ensures { result ≡ verdict_of answer }
    {
        match answer {
            Ok(value) => Verdict::Grant(value),
            Err(why) => Verdict::Refuse(why, 0),
        }
    }

    /// The code that the caller finds: 0 where its call is granted.
    pub fn code(self) -> u32
        ensures { result ≡ verdict_code self }
    {
        match self {
            Verdict::Refuse(code, _) => code.number(),
            Verdict::Again(_) => AGAIN,
            Verdict::Grant(_) => 0,
        }
    }

    /// The value that the caller finds.
    pub fn value(self) -> u32
        ensures { result ≡ verdict_value self }
    {
        match self {
            Verdict::Refuse(_, value) | Verdict::Grant(value) => value,
            Verdict::Again(who) => u32::from(who),
        }
    }
}
