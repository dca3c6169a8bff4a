//! The top call.
ghost use Rattle.std.specs.Prelude.{◌≡◌, IfNone, length};
ghost use Rattle.commands.specs.Edges.{shelf_edge, sink_edge};
ghost use Rattle.commands.specs.Outcome.{Finished, IsOutcome, IsUsage};
ghost use Rattle.aegis_command.specs.Headline.{IsComplete, IsDenied, IsGiven, IsHeadline, IsLoad, TakesAll};
ghost use Rattle.aegis_command.specs.Words.{asked_by, texts_of};

use crate::words::{parse, perform_words};
use commands::{Status, Stop};
use edge_io::{Shelf, Sink, write_whole};
use std::alloc::Global;

/// What is written where the words are no command's.
const USAGE: &[u8] = b"aegis: usage\n";

/// Writes a text, and answers the intended status unless a write fails.
fn finish<K: Sink>(out: &mut K, text: &[u8], status: Status) -> Status
    ensures finished { Finished status text.now (sink_edge K.Sink out.old out.new) result }
    ensures sure { K.Takes out.old (length text.now) → result ≡ status }
{
    match write_whole(out, text) {
        Ok(()) => status,
        Err(_) => Status::WriteFault,
    }
}

/// Does what the words ask, and says by its status how it ended.
fn respond<S: Shelf, K: Sink>(alloc: Global, words: &[String], shelf: &mut S, out: &mut K) -> Status
    ensures unread { IfNone (asked_by words.now) (shelf.new ≡ shelf.old) }
    ensures usage { IsUsage (asked_by words.now) (sink_edge K.Sink out.old out.new) result }
    ensures outcome { IsOutcome (asked_by words.now) (shelf_edge S.Shelf shelf.old shelf.new) (sink_edge K.Sink out.old out.new) result }
    ensures served { IsGiven (asked_by words.now) (shelf_edge S.Shelf shelf.old shelf.new) result }
    ensures refused { IsDenied (asked_by words.now) (shelf_edge S.Shelf shelf.old shelf.new) result }
    ensures taken { TakesAll (asked_by words.now) (shelf_edge S.Shelf shelf.old shelf.new) (sink_edge K.Sink out.old out.new) result }
{
    let Some(words) = parse(words) else {
        return finish(out, USAGE, Status::Usage);
    };
    match perform_words(alloc, words, shelf) {
        Ok(answer) => finish(out, &answer.text, answer.status),
        Err(Stop::ReadFault) => Status::ReadFault,
        Err(Stop::OutOfMemory) => Status::OutOfMemory,
    }
}

/// Does what the words ask, over a shelf of files and a sink for the output (`docs/REPORT.md`). All
/// files that the words name are read first, in their order; then they are checked in this order;
/// then the work is done, and last the whole output is written.
pub fn aegis<S: Shelf, K: Sink>(
    alloc: Global,
    words: &[String],
    shelf: &mut S,
    out: &mut K,
) -> Status
    // The headline: what run and long write is the report of the world, by the status, of what was read in the call.
    ensures headline { IsHeadline (texts_of words.now) (shelf_edge S.Shelf shelf.old shelf.new) (sink_edge K.Sink out.old out.new) result }

    // What load writes is a run in short, of the image and the schedule that its number gives. It is never refused.
    ensures load { IsLoad (texts_of words.now) (shelf_edge S.Shelf shelf.old shelf.new) (sink_edge K.Sink out.old out.new) result }

    // What any command writes is what is due for its files. The laws of `commands` say what is due.
    ensures complete { IsComplete (asked_by words.now) (shelf_edge S.Shelf shelf.old shelf.new) (sink_edge K.Sink out.old out.new) result }

    // Words that are no command's are answered so, no file is read, and no memory is wanted.
    ensures unread { IfNone (asked_by words.now) (shelf.new ≡ shelf.old) }
    ensures usage { IsUsage (asked_by words.now) (sink_edge K.Sink out.old out.new) result }

    // What holds for words of a command, by the status, of what was read and what was written: what is written is due for
    // what the shelf's reads gave in this call, by the names that were read. No other status comes.
    ensures outcome { IsOutcome (asked_by words.now) (shelf_edge S.Shelf shelf.old shelf.new) (sink_edge K.Sink out.old out.new) result }

    // A shelf that is sure to serve the names gives no fault of reading.
    ensures served { IsGiven (asked_by words.now) (shelf_edge S.Shelf shelf.old shelf.new) result }

    // A shelf that is sure to refuse its next read gives no file.
    ensures refused { IsDenied (asked_by words.now) (shelf_edge S.Shelf shelf.old shelf.new) result }

    // A sink that is sure to take what is due, or the usage, gives no fault of writing.
    ensures taken { TakesAll (asked_by words.now) (shelf_edge S.Shelf shelf.old shelf.new) (sink_edge K.Sink out.old out.new) result }
{
    respond(alloc, words, shelf, out)
}
