//! One call of the program in memory.
ghost use Rattle.std.specs.Prelude.{IfOk};
ghost use Rattle.aegis_command.specs.Words.{asked_by};
ghost use Rattle.memory_runs.specs.InMemory.{HasAnswer, IsRefusedInMemory, IsSureInMemory};

use crate::shelf::MemoryShelf;
use crate::sink::MemorySink;
use aegis_command::{Status, aegis};
use aegis_limits::OutOfMemory;
use std::alloc::Global;

/// How a call ended, and what it wrote.
#[derive(Drop)]
pub struct Output {
    /// How it ended.
    pub status: Status,
    /// What it wrote.
    pub bytes: Vec<u8>,
}

/// Does what the words ask, over files in memory, and writes to a sink in memory.
pub fn run_in_memory(
    alloc: Global,
    words: &[String],
    shelf: &mut MemoryShelf,
    out: &mut MemorySink,
) -> Status
    // Where nothing is set to fail, the files are there and short enough, and there is room, what is due is written.
    ensures sure { IsSureInMemory (asked_by words.now) shelf.old out.old out.new result }
    // Where the first read is set to fail, nothing is written.
    ensures refused { IsRefusedInMemory (asked_by words.now) shelf.old out.old out.new result }
{
    aegis(alloc, words, shelf, out)
}

/// Does what the words ask, over these files, and answers how it ended and what it wrote: at most so many bytes as there
/// is room for.
pub fn call(
    alloc: Global,
    words: &[String],
    files: Vec<(String, Vec<u8>)>,
    room: usize,
) -> Result<Output, OutOfMemory>
    ensures { IfOk result (HasAnswer (asked_by words.now) files.items room) }
{
    let mut shelf = MemoryShelf::new(alloc, files, Vec::new(alloc));
    let mut out = MemorySink::new(alloc, room, usize::MAX, Vec::new(alloc))?;
    let status = run_in_memory(alloc, words, &mut shelf, &mut out);
    let MemorySink { bytes, .. } = out;
    Ok(Output { status, bytes })
}
