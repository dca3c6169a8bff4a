//! What the work of a command gives: an answer to be written, or why there is none.
ghost use Rattle.std.specs.Prelude.{◌≡◌, IfOk};
ghost use Rattle.commands.specs.Due.{Refusal, refusal_text};
ghost use Rattle.commands.specs.Work.{Settles, stop_of};
ghost use Rattle.commands.specs.declared.work.Stop.TheVariants as stop;

use crate::status::Status;
use aegis_limits::OutOfMemory;
use edge_io::ReadFail;
use line_text::{Word, push_line};
use std::alloc::Global;

/// What is to be written, and the status once it is.
#[derive(Drop)]
pub struct Answer {
    pub text: Vec<u8>,
    pub status: Status,
}

impl Answer {
    /// The refusal of a file: its name, why, and where.
    pub fn refusal(alloc: Global, name: &str, why: &str, place: u32) -> Result<Answer, OutOfMemory>
        ensures { IfOk result (Settles (Refusal (refusal_text name.now why.now place))) }
    {
        Ok(Answer {
            text: refusal_text(alloc, name, why, place)?,
            status: Status::Refused,
        })
    }
}

/// Why there is nothing to write.
#[derive(Clone, Copy)]
pub enum Stop {
    /// A file couldn't be read.
    ReadFault,
    /// No memory was found.
    OutOfMemory,
}

impl From<ReadFail> for Stop {
    ghost from_gives = { λ e s. s ≡ stop_of e };

    fn from(e: ReadFail) -> Stop {
        match e {
            ReadFail::Failed => Stop::ReadFault,
            ReadFail::OutOfMemory => Stop::OutOfMemory,
        }
    }
}

impl From<OutOfMemory> for Stop {
    ghost from_gives = { λ _ s. s ≡ stop.OutOfMemory };

    fn from(_e: OutOfMemory) -> Stop {
        Stop::OutOfMemory
    }
}

/// Which file is refused, why, and where.
#[tactic(auto, unfolding(crate::specs::Due::refusal_text, line_text::specs::WrittenLine::line_of))]
fn refusal_text<'a>(
    alloc: Global,
    name: &'a str,
    why: &'a str,
    place: u32,
) -> Result<Vec<u8>, OutOfMemory>
    ensures { IfOk result (λ text. text.items ≡ refusal_text name.now why.now place) }
{
    let mut text = Vec::new(alloc);
    let words = [
        Word::Label(name.as_bytes()),
        Word::Text(why.as_bytes()),
        Word::Number(u64::from(place)),
    ];
    push_line(&mut text, b"aegis:", &words)?;
    Ok(text)
}
