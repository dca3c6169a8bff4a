//! A run of a file, and its text.
ghost use Rattle.std.specs.Prelude.{◌≡◌, IfErr, IfOk, None, length};
ghost use Rattle.line_text.specs.Failing.{IsFound};
ghost use Rattle.bare_board.specs.Faults.{bare_fault};
ghost use Rattle.bare_board.specs.Loading.{bare_pages};
ghost use Rattle.bare_board.specs.Run.{bare_text_of, how_ended, text_of_run};

use crate::board::Board;
use crate::ending::BareEnd;
use crate::fault::{BareFault, fault_of};
use crate::text::push_run;
use aegis_limits::OutOfMemory;
use line_text::Failure;
use std::alloc::Global;

/// How a run ended, by the ticks done before it halted, if it did.
fn how_ended(halt: Option<u32>) -> BareEnd
    ensures { result ≡ how_ended halt }
{
    match halt {
        Some(_) => BareEnd::Halt,
        None => BareEnd::Limit,
    }
}

/// The text of a run of at most so many ticks.
#[tactic(auto, unfolding(crate::specs::Run::text_of_run))]
fn text_of_run(
    alloc: Global,
    board: &Board,
    halt: Option<u32>,
    ticks: u32,
) -> Result<Vec<u8>, OutOfMemory>
    requires { length board.now.frames ≡ bare_pages }
    ensures { IfOk result (λ text. text.items ≡ text_of_run ticks (record { board = board.now; halt = halt })) }
{
    let mut text = Vec::new(alloc);
    push_run(
        alloc,
        &mut text,
        how_ended(halt),
        halt.unwrap_or(ticks),
        &board.machine,
        &board.frames,
    )?;
    Ok(text)
}

/// The text of a run of this file.
fn run_text(alloc: Global, file: &[u8], ticks: u32, period: u32) -> Result<Vec<u8>, OutOfMemory>
    ensures { IfOk result (λ text. text.items ≡ bare_text_of file.now ticks period) }
{
    let mut board = Board::new(alloc, file)?;
    let halt = board.run(ticks, period);
    text_of_run(alloc, &board, halt, ticks)
}

/// The text of a run of a flat file in kernel mode, of at most so many ticks, with an interrupt at each multiple of the
/// period, or none with a period of 0 (`docs/BARE.md`, "Ticks").
pub fn bare_text(
    alloc: Global,
    file: &[u8],
    ticks: u32,
    period: u32,
) -> Result<Vec<u8>, Failure<BareFault>>
    ensures ok { IfOk result (λ text. (bare_fault file.now ≡ None) × (text.items ≡ bare_text_of file.now ticks period)) }
    ensures err { IfErr result (IsFound (bare_fault file.now)) }
{
    if let Some(fault) = fault_of(file) {
        return Err(Failure::Fault(fault));
    }
    match run_text(alloc, file, ticks, period) {
        Ok(text) => Ok(text),
        Err(OutOfMemory) => Err(Failure::OutOfMemory),
    }
}
