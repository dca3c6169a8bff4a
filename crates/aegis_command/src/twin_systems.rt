//! The command `twin IMAGE SCHEDULE IMAGE SCHEDULE ENV N`.
ghost use Rattle.std.specs.Prelude.{◌≡◌, ◌<◌, ◌^◌, IfOk, length, map, option_map, string_bytes, true};
ghost use Rattle.commands.specs.Work.{Settles};
ghost use Rattle.external_event.specs.Order.{are_in_order};
ghost use Rattle.twin_run.specs.Course.{Begins};
ghost use Rattle.aegis_command.specs.SystemDue.{meant};
ghost use Rattle.aegis_command.specs.TwinSystems.{answer_due, answer_on, answer_seen, due_seen, twin_seen, twin_words};

use crate::ranged::LastSlice;
use crate::system_files::{SystemFiles, SystemNames};
use crate::trace_env::parse_env;
use aegis_limits::OutOfMemory;
use boot_image::Image;
use commands::{Answer, Command, Status, content};
use external_event::Event;
use feed_log::ToldRun;
use feed_run::BoardRun;
use std::alloc::Global;
use twin_run::{TwinAnswer, twin, twin_text};

/// `twin IMAGE SCHEDULE IMAGE SCHEDULE ENV N`: two runs compared by what an environment is given in them up to the end of
/// its slice N.
#[derive(Clone, Copy)]
pub struct TwinSystems<'a> {
    /// The left system.
    pub left: SystemNames<'a>,
    /// The right one.
    pub right: SystemNames<'a>,
    /// The number of the environment, which the images may lack.
    pub env: u8,
    /// The slice up to whose end it is compared.
    pub slice: LastSlice,
}

impl<'a> TwinSystems<'a> {
    /// The comparison that the words behind `twin` ask for, if they are one's.
    pub fn parse(words: &'a [String]) -> Option<TwinSystems<'a>>
        ensures { option_map twin_seen result ≡ twin_words (map string_bytes words.now) }
    {
        let [image, schedule, other, other_schedule, env, slice] = words else {
            return None;
        };
        let env = parse_env(env.as_str())?;
        let slice = LastSlice::parse(slice.as_str())?;
        Some(TwinSystems {
            left: SystemNames {
                image: image.as_str(),
                schedule: schedule.as_str(),
            },
            right: SystemNames {
                image: other.as_str(),
                schedule: other_schedule.as_str(),
            },
            env,
            slice,
        })
    }
}

/// The answer of a comparison. It has found something, unless both are the same.
fn settle(alloc: Global, env: u8, answer: &TwinAnswer) -> Result<Answer, OutOfMemory>
    ensures { IfOk result (Settles (answer_due env answer.now)) }
{
    let status = match answer {
        TwinAnswer::Same { .. } => Status::Done,
        TwinAnswer::FeedsDiffer { .. } | TwinAnswer::NotReached { .. } => Status::Found,
    };
    Ok(Answer {
        text: twin_text(alloc, env, answer)?,
        status,
    })
}

/// The answer on two runs at their begins.
fn compare<R: ToldRun + Drop>(
    alloc: Global,
    mut left: R,
    mut right: R,
    env: u8,
    slice: LastSlice,
) -> Result<Answer, OutOfMemory>
    requires left { Begins env (R.progress left) }
    requires right { Begins env (R.progress right) }
    requires left_whole { R.IsWhole left }
    requires right_whole { R.IsWhole right }
    ensures { IfOk result (Settles (answer_on (R.progress left).system (R.progress right).system env slice.number)) }
{
    let answer = twin(alloc, &mut left, &mut right, env, slice.number)?;
    settle(alloc, env, &answer)
}

/// The answer on two systems of images and events.
fn answer<'i, 'b, 'e>(
    alloc: Global,
    call: TwinSystems<'_>,
    left: &'i Image<'b>,
    left_events: &'e [Event],
    right: &'i Image<'b>,
    right_events: &'e [Event],
) -> Result<Answer, OutOfMemory>
    requires left { are_in_order 0 left_events.now ≡ true }
    requires right { are_in_order 0 right_events.now ≡ true }
    ensures { IfOk result (Settles (answer_seen call.entry (meant left.now left_events.now) (meant right.now right_events.now))) }
{
    let left = BoardRun::boot(alloc, left, left_events, call.env)?;
    let right = BoardRun::boot(alloc, right, right_events, call.env)?;
    compare(alloc, left, right, call.env, call.slice)
}

/// What is due for a comparison of these files: the first fault, or the answer.
fn due<'b>(
    alloc: Global,
    call: TwinSystems<'_>,
    image: &'b [u8],
    schedule: &[u8],
    other: &'b [u8],
    other_schedule: &[u8],
) -> Result<Answer, OutOfMemory>
    requires image { length image.now < 2 ^ 27 }
    requires schedule { length schedule.now < 2 ^ 27 }
    requires other { length other.now < 2 ^ 27 }
    requires other_schedule { length other_schedule.now < 2 ^ 27 }
    ensures { IfOk result (Settles (due_seen call.entry image.now schedule.now other.now other_schedule.now)) }
{
    let (left, left_events) = match call.left.read(alloc, image, schedule)? {
        SystemFiles::Refused(answer) => return Ok(answer),
        SystemFiles::Sound(image, events) => (image, events),
    };
    match call.right.read(alloc, other, other_schedule)? {
        SystemFiles::Refused(answer) => Ok(answer),
        SystemFiles::Sound(right, right_events) => {
            answer(alloc, call, &left, &left_events, &right, &right_events)
        }
    }
}

impl Command for TwinSystems<'_> {
    ghost value = { twin_seen };

    fn names(&self, alloc: Global) -> Result<Vec<String>, OutOfMemory> {
        let mut names = self.left.names(alloc)?;
        names.append(&mut self.right.names(alloc)?)?;
        Ok(names)
    }

    fn further(&self, alloc: Global, _contents: &[Vec<u8>]) -> Result<Vec<String>, OutOfMemory> {
        Ok(Vec::new(alloc))
    }

    fn answer(&self, alloc: Global, contents: &[Vec<u8>]) -> Result<Answer, OutOfMemory> {
        due(
            alloc,
            *self,
            content(contents, 0),
            content(contents, 1),
            content(contents, 2),
            content(contents, 3),
        )
    }
}
