//! The command `bare FILE TICKS PERIOD`.
ghost use Rattle.std.specs.Prelude.{◌≡◌, IfOk, map, option_map, string_bytes};
ghost use Rattle.commands.specs.Work.{Settles};
ghost use Rattle.aegis_command.specs.RunBare.{bare_due, bare_seen, bare_words};

use crate::ranged::Ticks;
use aegis_limits::OutOfMemory;
use bare_board::bare_text;
use commands::{Answer, Command, Status, content};
use line_text::Failure;
use std::alloc::Global;

/// `bare FILE TICKS PERIOD`: the text of a flat file's run in kernel mode.
#[derive(Clone, Copy)]
pub struct RunBare<'a> {
    /// The name of the file.
    pub file: &'a str,
    /// How many ticks to run at most.
    pub ticks: Ticks,
    /// At the multiples of how many ticks an interrupt comes; of 0 none does.
    pub period: Ticks,
}

impl<'a> RunBare<'a> {
    /// The run that the words behind `bare` ask for, if they are one's.
    pub fn parse(words: &'a [String]) -> Option<RunBare<'a>>
        ensures { option_map bare_seen result ≡ bare_words (map string_bytes words.now) }
    {
        let [file, ticks, period] = words else {
            return None;
        };
        let ticks = Ticks::parse(ticks.as_str())?;
        let period = Ticks::parse(period.as_str())?;
        Some(RunBare {
            file: file.as_str(),
            ticks,
            period,
        })
    }
}

/// What is due for a file: its fault, or the text of its run.
fn due(alloc: Global, call: RunBare<'_>, file: &[u8]) -> Result<Answer, OutOfMemory>
    ensures { IfOk result (Settles (bare_due call.entry.file.now file.now call.entry.ticks.number call.entry.period.number)) }
{
    match bare_text(alloc, file, call.ticks.number, call.period.number) {
        Ok(text) => Ok(Answer {
            text,
            status: Status::Done,
        }),
        Err(Failure::Fault(fault)) => Answer::refusal(
            alloc,
            call.file,
            fault.name(),
            fault.place(),
        ),
        Err(Failure::OutOfMemory) => Err(OutOfMemory),
    }
}

impl Command for RunBare<'_> {
    ghost value = { bare_seen };

    fn names(&self, alloc: Global) -> Result<Vec<String>, OutOfMemory> {
        Ok(vec![in alloc; String::from_str(alloc, self.file)?]?)
    }

    fn further(&self, alloc: Global, _contents: &[Vec<u8>]) -> Result<Vec<String>, OutOfMemory> {
        Ok(Vec::new(alloc))
    }

    fn answer(&self, alloc: Global, contents: &[Vec<u8>]) -> Result<Answer, OutOfMemory> {
        due(alloc, *self, content(contents, 0))
    }
}
