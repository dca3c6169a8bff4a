//! What `long IMAGE SCHEDULE TICKS` writes.
ghost use Rattle.aegis_command.specs.LongRun.{long_asked, long_writing};

use crate::ended_run::ended_long_run;
use crate::ranged::LongTicks;
use crate::system_command::SystemText;
use aegis_limits::OutOfMemory;
use boot_image::Image;
use external_event::Event;
use run_report::report;
use std::alloc::Global;

/// `TICKS`: the report of an image's world after so many ticks, as `run` writes it, but more ticks.
#[derive(Clone, Copy)]
pub struct LongReport {
    /// How many ticks to run.
    pub ticks: LongTicks,
}

impl SystemText for LongReport {
    ghost writing = { long_writing };

    ghost asked = { long_asked };

    fn parse(words: &[String]) -> Option<LongReport> {
        let [ticks] = words else {
            return None;
        };
        let ticks = LongTicks::parse(ticks.as_str())?;
        Some(LongReport { ticks })
    }

    fn write(
        &self,
        alloc: Global,
        image: &Image<'_>,
        events: &[Event],
    ) -> Result<Vec<u8>, OutOfMemory> {
        let run = ended_long_run(alloc, image, events, self.ticks)?;
        report(alloc, &run.board, run.end)
    }
}
