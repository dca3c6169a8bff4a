//! What `run IMAGE SCHEDULE TICKS` writes.
ghost use Rattle.aegis_command.specs.RunImage.{report_asked, report_writing};

use crate::ended_run::ended_run;
use crate::ranged::Ticks;
use crate::system_command::SystemText;
use aegis_limits::OutOfMemory;
use boot_image::Image;
use external_event::Event;
use run_report::report;
use std::alloc::Global;

/// `TICKS`: the report of an image's world after so many ticks, in which the schedule's events happen.
#[derive(Clone, Copy)]
pub struct Report {
    /// How many ticks to run.
    pub ticks: Ticks,
}

impl SystemText for Report {
    ghost writing = { report_writing };

    ghost asked = { report_asked };

    fn parse(words: &[String]) -> Option<Report> {
        let [ticks] = words else {
            return None;
        };
        let ticks = Ticks::parse(ticks.as_str())?;
        Some(Report { ticks })
    }

    fn write(
        &self,
        alloc: Global,
        image: &Image<'_>,
        events: &[Event],
    ) -> Result<Vec<u8>, OutOfMemory> {
        let run = ended_run(alloc, image, events, self.ticks)?;
        report(alloc, &run.board, run.end)
    }
}
