//! The program.
ghost use Rattle.std.specs.Prelude.{◌≡◌};
ghost use Rattle.commands.specs.Outcome.{IsOutcome, IsUsage};
ghost use Rattle.aegis_command.specs.Headline.{IsHeadline};
ghost use Rattle.aegis_command.specs.Words.{asked_by, texts_of};
ghost use Rattle.aegis_program.specs.Met.{files_met, writer_met};

use aegis_command::{Status, aegis};
use edge_io::{Folder, HostShelf, HostSink, Readings};
use std::alloc::Global;
use std::io::Write;

/// How a call of the program ended.
#[derive(Drop)]
pub struct Ended<W: Write> {
    /// Its status (`docs/REPORT.md`).
    pub status: Status,
    /// The reads that it made, and what they gave.
    pub read: Readings,
    /// What it wrote to.
    pub out: W,
    /// How many writes failed.
    pub faults: u64,
}

/// Does what the words ask (`docs/REPORT.md`), with the files that this folder opens, and writes to `out`. A write may take
/// less than it was given, and is tried again where a signal came first.
pub fn program_over<D: Folder + Drop, W: Write + Drop>(
    alloc: Global,
    words: &[String],
    folder: D,
    out: W,
) -> Ended<W>
    // The headline: what run and long write is the report of the world of what was read.
    ensures headline { IsHeadline (texts_of words.now) (files_met (D.told folder) result.read) (writer_met (W.contents out) (W.contents result.out) result.faults) result.status }

    // What any command writes is what is due for what was read. Else a read failed, a write failed after a part of it, or
    // memory ran out.
    ensures outcome { IsOutcome (asked_by words.now) (files_met (D.told folder) result.read) (writer_met (W.contents out) (W.contents result.out) result.faults) result.status }

    // Words of no command are answered so.
    ensures usage { IsUsage (asked_by words.now) (writer_met (W.contents out) (W.contents result.out) result.faults) result.status }
{
    let mut shelf = HostShelf::new(alloc, folder);
    let mut sink = HostSink::new(out);
    let status = aegis(alloc, words, &mut shelf, &mut sink);
    Ended {
        status,
        read: shelf.kept,
        out: sink.out,
        faults: sink.faults,
    }
}
