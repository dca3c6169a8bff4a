//! The two files of a system.
ghost use Rattle.std.specs.Prelude.{◌≡◌, ◌<◌, ◌^◌, [], ◌∷◌, IfOk, length, map, string_bytes};
ghost use Rattle.aegis_command.specs.SystemFiles.{AreSystemFiles, names_seen};

use aegis_limits::OutOfMemory;
use boot_image::{Image, read_image};
use boot_schedule::{law_in_order, read_schedule};
use commands::Answer;
use external_event::Event;
use line_text::Failure;
use std::alloc::Global;

/// The names of a system's files.
#[derive(Clone, Copy)]
pub struct SystemNames<'a> {
    /// The name of the image.
    pub image: &'a str,
    /// The name of the schedule.
    pub schedule: &'a str,
}

/// What an image and a schedule are.
#[derive(Drop)]
pub(crate) enum SystemFiles<'a> {
    /// The refusal of the first that has a fault.
    Refused(Answer),
    /// An image that boots, and what happens from outside.
    Sound(Image<'a>, Vec<Event>),
}

impl SystemNames<'_> {
    /// The names in the order in which the files are read.
    pub(crate) fn names(&self, alloc: Global) -> Result<Vec<String>, OutOfMemory>
        ensures { IfOk result (λ names. map string_bytes names.items ≡ self.now.image.now ∷ self.now.schedule.now ∷ []) }
    {
        let image = String::from_str(alloc, self.image)?;
        let schedule = String::from_str(alloc, self.schedule)?;
        Ok(vec![in alloc; image, schedule]?)
    }

    /// Reads an image and a schedule of these names.
    pub(crate) fn read<'a>(
        &self,
        alloc: Global,
        image: &'a [u8],
        schedule: &[u8],
    ) -> Result<SystemFiles<'a>, OutOfMemory>
        requires image { length image.now < 2 ^ 27 }
        requires schedule { length schedule.now < 2 ^ 27 }
        ensures { IfOk result (AreSystemFiles (names_seen self.now) image.now schedule.now) }
    {
        law_in_order();
        let image = match read_image(alloc, image) {
            Ok(image) => image,
            Err(Failure::Fault(fault)) => {
                let answer = Answer::refusal(alloc, self.image, fault.why.name(), fault.place)?;
                return Ok(SystemFiles::Refused(answer));
            }
            Err(Failure::OutOfMemory) => return Err(OutOfMemory),
        };
        let events = match read_schedule(alloc, schedule) {
            Ok(events) => events,
            Err(Failure::Fault(fault)) => {
                let answer = Answer::refusal(alloc, self.schedule, fault.why.name(), fault.line)?;
                return Ok(SystemFiles::Refused(answer));
            }
            Err(Failure::OutOfMemory) => return Err(OutOfMemory),
        };
        Ok(SystemFiles::Sound(image, events))
    }
}
