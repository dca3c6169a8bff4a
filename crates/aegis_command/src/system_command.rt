//! A command of a system's two files.
ghost use Rattle.std.specs.Prelude.{◌≡◌, ◌<◌, ◌^◌, ℕ, List, Option, IfOk, length, map, option_map, string_bytes, true};
ghost use Rattle.external_event.specs.Order.{are_in_order};
ghost use Rattle.commands.specs.Work.{Settles};
ghost use Rattle.aegis_command.specs.SystemCommand.{system_seen};
ghost use Rattle.aegis_command.specs.SystemDue.{Writing, system_due, system_words};
ghost use Rattle.aegis_command.specs.SystemFiles.{names_seen};

use crate::system_files::{SystemFiles, SystemNames};
use aegis_limits::OutOfMemory;
use boot_image::Image;
use commands::{Answer, Command, Status, content};
use external_event::Event;
use std::alloc::Global;

/// What is written of a system: what the words behind the names of its files ask for.
pub trait SystemText: Copy {
    // What is written, by the system's image and its events.
    ghost writing: { Self → Writing };

    // What words ask for.
    ghost asked: { List (List ℕ) → Option Writing };

    /// What words ask for, if anything.
    fn parse(words: &[String]) -> Option<Self>
        ensures { option_map writing result ≡ asked (map string_bytes words.now) };

    /// The text for an image and events.
    fn write(
        &self,
        alloc: Global,
        image: &Image<'_>,
        events: &[Event],
    ) -> Result<Vec<u8>, OutOfMemory>
        requires { are_in_order 0 events.now ≡ true }
        ensures { IfOk result (λ text. text.items ≡ writing self.now image.now events.now) };
}

/// The names of a system's files, and what is written of it.
#[derive(Clone, Copy)]
pub struct SystemCommand<'a, T> {
    /// The names.
    pub names: SystemNames<'a>,
    /// What is written.
    pub text: T,
}

impl<'a, T: SystemText> SystemCommand<'a, T> {
    /// The command that words ask for: the names of its files, and what is written.
    pub fn parse(words: &'a [String]) -> Option<SystemCommand<'a, T>>
        ensures { option_map (system_seen T.writing) result ≡ system_words T.asked (map string_bytes words.now) }
    {
        let [image, schedule, rest @ ..] = words else {
            return None;
        };
        let text = T::parse(rest)?;
        Some(SystemCommand {
            names: SystemNames {
                image: image.as_str(),
                schedule: schedule.as_str(),
            },
            text,
        })
    }

    /// What is due for these files: the first fault, or what is written of the system.
    fn due(&self, alloc: Global, image: &[u8], schedule: &[u8]) -> Result<Answer, OutOfMemory>
        requires image { length image.now < 2 ^ 27 }
        requires schedule { length schedule.now < 2 ^ 27 }
        ensures { IfOk result (Settles (system_due (names_seen self.now.names) (T.writing self.now.text) image.now schedule.now)) }
    {
        match self.names.read(alloc, image, schedule)? {
            SystemFiles::Refused(answer) => Ok(answer),
            SystemFiles::Sound(image, events) => Ok(Answer {
                text: self.text.write(alloc, &image, &events)?,
                status: Status::Done,
            }),
        }
    }
}

impl<T: SystemText> Command for SystemCommand<'_, T> {
    ghost value = { system_seen T.writing };

    fn names(&self, alloc: Global) -> Result<Vec<String>, OutOfMemory> {
        self.names.names(alloc)
    }

    fn further(&self, alloc: Global, _contents: &[Vec<u8>]) -> Result<Vec<String>, OutOfMemory> {
        Ok(Vec::new(alloc))
    }

    fn answer(&self, alloc: Global, contents: &[Vec<u8>]) -> Result<Answer, OutOfMemory> {
        self.due(alloc, content(contents, 0), content(contents, 1))
    }
}
