//! What `tlb IMAGE SCHEDULE TICKS` writes.
ghost use Rattle.std.specs.Prelude.{◌≡◌, IfOk};
ghost use Rattle.board_model.specs.Showing.{world_of};
ghost use Rattle.aegis_command.specs.TlbImage.{board_text, report_and_tlb_asked, report_and_tlb_writing};

use crate::ended_run::ended_run;
use crate::ranged::Ticks;
use crate::system_command::SystemText;
use aegis_calls::Board;
use aegis_limits::OutOfMemory;
use boot_image::Image;
use external_event::Event;
use kernel_journal::RunEnd;
use run_report::report;
use std::alloc::Global;
use tlb_report::tlb_text;

/// `TICKS`: the report of a run, and behind it the TLB that the run leaves.
#[derive(Clone, Copy)]
pub struct ReportAndTlb {
    /// How many ticks to run.
    pub ticks: Ticks,
}

/// The report of a board whose run ended in this way, and behind it its TLB.
fn text_of(alloc: Global, board: &Board, end: RunEnd) -> Result<Vec<u8>, OutOfMemory>
    ensures { IfOk result (λ text. text.items ≡ board_text (world_of board.now) board.now.tlb end) }
{
    let mut text = report(alloc, board, end)?;
    let tlb = tlb_text(alloc, board, end)?;
    text.extend_from_slice(&tlb)?;
    Ok(text)
}

impl SystemText for ReportAndTlb {
    ghost writing = { report_and_tlb_writing };

    ghost asked = { report_and_tlb_asked };

    fn parse(words: &[String]) -> Option<ReportAndTlb> {
        let [ticks] = words else {
            return None;
        };
        let ticks = Ticks::parse(ticks.as_str())?;
        Some(ReportAndTlb { ticks })
    }

    fn write(
        &self,
        alloc: Global,
        image: &Image<'_>,
        events: &[Event],
    ) -> Result<Vec<u8>, OutOfMemory> {
        let run = ended_run(alloc, image, events, self.ticks)?;
        text_of(alloc, &run.board, run.end)
    }
}
