//! The headers of a core, and the bytes of its pages.
ghost use Rattle.std.specs.Prelude.{◌≡◌, ◌≤◌, ◌<◌, ◌+◌, ◌*◌, ◌^◌, ◌++◌, length, OnOk};
ghost use Rattle.aegis_limits.specs.Limits.{page_size, vpn_end};
ghost use Rattle.core_file.specs.Core.{core_header, run_flags, headers_text, notes_header, notes_start, pages_start, pages_text, run_header, run_headers};
ghost use Rattle.core_file.specs.Seen.{AreUserPages, FitsWords, pages_in, pages_shown};

use crate::notes::NOTES_SIZE;
use crate::pages::SeenPage;
use crate::runs::Run;
use aegis_limits::{OutOfMemory, PAGE_BYTES};
use elf_static::{
    EXECUTE, FILE_HEADER_SIZE, IDENTIFICATION, LOADED, MIPS, PROGRAM_HEADER_SIZE, READ, VERSION,
    WRITE, push_halves, push_words,
};

/// The type of a core file.
const CORE: u16 = 4;
/// The flags of a file of the o32 convention, for a machine of the first MIPS architecture.
const O32: u32 = 0x1000;
/// The type of a program header whose segment is notes.
const NOTES: u32 = 4;
/// The alignment of notes.
const NOTES_ALIGNMENT: u32 = 4;
/// The alignment of a run that may stand anywhere.
const UNALIGNED: u32 = 1;
/// How many values a half word has.
const HALF_VALUES: usize = 1 << 16;

/// Appends the file header, for so many program headers.
#[tactic(auto, unfolding(crate::specs::Core::core_header, elf_static::specs::Layout::identification))]
fn push_core_header(file: &mut Vec<u8>, headers: usize) -> Result<(), OutOfMemory>
    ensures { OnOk result (file.new.items ≡ file.old.items ++ core_header headers) }
{
    let headers_start = FILE_HEADER_SIZE as u32;
    file.extend_from_slice(&IDENTIFICATION)?;
    push_halves(file, &[CORE, MIPS])?;
    push_words(file, &[VERSION, 0, headers_start, 0, O32])?;
    push_halves(
        file,
        &[
            FILE_HEADER_SIZE as u16,
            PROGRAM_HEADER_SIZE as u16,
            (headers % HALF_VALUES) as u16,
            0,
            0,
            0,
        ],
    )
}

/// Appends the header of the notes, which stand at an offset of the file.
#[tactic(auto, unfolding(crate::specs::Core::notes_header))]
fn push_notes_header(file: &mut Vec<u8>, offset: u32) -> Result<(), OutOfMemory>
    ensures { OnOk result (file.new.items ≡ file.old.items ++ notes_header offset) }
{
    push_words(
        file,
        &[NOTES, offset, 0, 0, NOTES_SIZE, 0, 0, NOTES_ALIGNMENT],
    )
}

/// The flags of a run.
fn run_flags(writable: bool) -> u32
    ensures { result ≡ run_flags writable }
{
    if writable {
        READ + WRITE + EXECUTE
    } else {
        READ + EXECUTE
    }
}

/// Appends the header of a run whose bytes stand at an offset of the file.
#[tactic(auto, unfolding(crate::specs::Core::run_header, elf_static::specs::Layout::words))]
fn push_run_header(file: &mut Vec<u8>, offset: u32, run: &Run) -> Result<(), OutOfMemory>
    requires { run.now.first + run.now.count ≤ vpn_end }
    ensures { OnOk result (file.new.items ≡ file.old.items ++ run_header offset run.now) }
{
    let address = PAGE_BYTES * run.first;
    let size = PAGE_BYTES * run.count;
    let flags = run_flags(run.writable);
    push_words(
        file,
        &[LOADED, offset, address, 0, size, size, flags, UNALIGNED],
    )
}

/// Appends the headers of runs whose bytes follow one another from an offset of the file on.
fn push_run_headers(file: &mut Vec<u8>, start: u32, runs: &[Run]) -> Result<(), OutOfMemory>
    requires within { AreUserPages runs.now }
    requires room { start + page_size * pages_in runs.now < 2 ^ 32 }
    ensures { OnOk result (file.new.items ≡ file.old.items ++ run_headers start runs.now) }
{
    let mut offset = start;
    for run in runs {
        push_run_header(file, offset, run)?;
        offset += PAGE_BYTES * run.count;
    }
    Ok(())
}

/// Appends the headers of a core whose pages make these runs.
#[tactic(auto, unfolding(crate::specs::Core::headers_text))]
pub(crate) fn push_headers(file: &mut Vec<u8>, runs: &[Run]) -> Result<(), OutOfMemory>
    requires { FitsWords runs.now }
    ensures { OnOk result (file.new.items ≡ file.old.items ++ headers_text runs.now) }
{
    let headers = 1 + runs.len();
    let notes_start = (FILE_HEADER_SIZE + PROGRAM_HEADER_SIZE * headers) as u32;
    push_core_header(file, headers)?;
    push_notes_header(file, notes_start)?;
    push_run_headers(file, notes_start + NOTES_SIZE, runs)
}

/// Appends the bytes of pages.
pub(crate) fn push_pages(file: &mut Vec<u8>, pages: &[SeenPage<'_>]) -> Result<(), OutOfMemory>
    ensures { OnOk result (file.new.items ≡ file.old.items ++ pages_text (pages_shown pages.now)) }
{
    for page in pages {
        file.extend_from_slice(page.bytes)?;
    }
    Ok(())
}
