//! The command `core IMAGE SCHEDULE TICKS ENV`.
ghost use Rattle.std.specs.Prelude.{◌≡◌, ◌<◌, ◌^◌, IfOk, length, map, option_map, string_bytes, true};
ghost use Rattle.external_event.specs.Order.{are_in_order};
ghost use Rattle.board_model.specs.Showing.{world_of};
ghost use Rattle.commands.specs.Work.{Settles};
ghost use Rattle.aegis_command.specs.CoreEnv.{core_after, core_due, core_due_seen, core_seen, core_words};

use crate::ended_run::ended_long_run;
use crate::ranged::LongTicks;
use crate::system_files::{SystemFiles, SystemNames};
use crate::trace_env::parse_env;
use aegis_calls::Board;
use aegis_limits::OutOfMemory;
use boot_image::Image;
use commands::{Answer, Command, Status, content};
use core_file::core;
use external_event::Event;
use std::alloc::Global;
use world_model::{Life, WorldView};

/// `core IMAGE SCHEDULE TICKS ENV`: the state of an environment after a run, as a core file.
#[derive(Clone, Copy)]
pub struct CoreEnv<'a> {
    /// The names of the system's files.
    pub names: SystemNames<'a>,
    /// How many ticks to run.
    pub ticks: LongTicks,
    /// The number of the environment, which the image may lack.
    pub env: u8,
}

/// The core of an environment of a board, or why there is none; the image has this name.
fn core_of(alloc: Global, image: &str, board: &Board, env: u8) -> Result<Answer, OutOfMemory>
    ensures { IfOk result (Settles (core_due image.now (world_of board.now) env)) }
{
    if env >= board.envs() {
        return Answer::refusal(alloc, image, "Absent", u32::from(env));
    }
    match board.life(env) {
        Life::Dead(_) => Answer::refusal(alloc, image, "Dead", u32::from(env)),
        Life::Live => Ok(Answer {
            text: core(alloc, board, env)?,
            status: Status::Done,
        }),
    }
}

impl<'a> CoreEnv<'a> {
    /// The core that the words behind `core` ask for, if they are one's.
    pub fn parse(words: &'a [String]) -> Option<CoreEnv<'a>>
        ensures { option_map core_seen result ≡ core_words (map string_bytes words.now) }
    {
        let [image, schedule, ticks, env] = words else {
            return None;
        };
        let ticks = LongTicks::parse(ticks.as_str())?;
        let env = parse_env(env.as_str())?;
        Some(CoreEnv {
            names: SystemNames {
                image: image.as_str(),
                schedule: schedule.as_str(),
            },
            ticks,
            env,
        })
    }

    /// The core after a run of an image, in which these events happen, or why there is none.
    fn after(
        &self,
        alloc: Global,
        image: &Image<'_>,
        events: &[Event],
    ) -> Result<Answer, OutOfMemory>
        requires { are_in_order 0 events.now ≡ true }
        ensures { IfOk result (Settles (core_after self.now.names.image.now self.now.ticks.number self.now.env image.now events.now)) }
    {
        let run = ended_long_run(alloc, image, events, self.ticks)?;
        core_of(alloc, self.names.image, &run.board, self.env)
    }

    /// What is due for these files: the first fault, or the core, or why there is none.
    fn due(&self, alloc: Global, image: &[u8], schedule: &[u8]) -> Result<Answer, OutOfMemory>
        requires image { length image.now < 2 ^ 27 }
        requires schedule { length schedule.now < 2 ^ 27 }
        ensures { IfOk result (Settles (core_due_seen self.now image.now schedule.now)) }
    {
        match self.names.read(alloc, image, schedule)? {
            SystemFiles::Refused(answer) => Ok(answer),
            SystemFiles::Sound(image, events) => self.after(alloc, &image, &events),
        }
    }
}

impl Command for CoreEnv<'_> {
    ghost value = { core_seen };

    fn names(&self, alloc: Global) -> Result<Vec<String>, OutOfMemory> {
        self.names.names(alloc)
    }

    fn further(&self, alloc: Global, _contents: &[Vec<u8>]) -> Result<Vec<String>, OutOfMemory> {
        Ok(Vec::new(alloc))
    }

    fn answer(&self, alloc: Global, contents: &[Vec<u8>]) -> Result<Answer, OutOfMemory> {
        self.due(alloc, content(contents, 0), content(contents, 1))
    }
}
