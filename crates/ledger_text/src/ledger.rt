//! Ledgers, and the reader that makes one of a report.
ghost use Rattle.std.specs.Prelude.{◌≡◌, ◌<◌, ◌^◌, length, OnOk};
ghost use Rattle.line_text.specs.Failing.{Gives};
ghost use Rattle.ledger_text.specs.LedgerText.{ledger_read, ledger_seen, no_ledger, with_entry, with_kind};

use crate::entry::{Entry, line_said};
use crate::fault::LedgerWhy;
use crate::kind::LineKind;
use aegis_limits::OutOfMemory;
use kernel_journal::Row;
use line_text::{Failure, LineFault, TextFailure, cut, end_of};
use std::alloc::Global;

/// A ledger: how a run ended, its environments, its rows, and the sums after them, each with the number of its line.
#[derive(Drop)]
pub struct Ledger {
    /// Whether the run ended because the board was idle.
    pub idle: bool,
    /// The time of the end, in ticks.
    pub time: u32,
    /// The line of each environment.
    pub environments: Vec<u32>,
    /// The rows, each behind its line's number.
    pub rows: Vec<(u32, Row)>,
    /// The sums, each behind its line's number: an environment, and how many of its rows are runs, pays and overs.
    pub sums: Vec<(u32, [u32; 4])>,
    /// The line after these.
    pub done: u32,
}

/// Reads a report as a ledger, or answers its first fault, unless memory runs out. `docs/LEDGER_AUDIT.md` has the form.
#[tactic(auto, unfolding(crate::specs::LedgerText::ledger_read))]
pub fn read_ledger(alloc: Global, text: &[u8]) -> Result<Ledger, TextFailure<LedgerWhy>>
    requires { length text.now < 2 ^ 27 }
    ensures { Gives ledger_seen result (ledger_read text.now) }
{
    let mut ledger = empty_ledger(alloc);
    let mut last = LineKind::Nothing;
    for line in cut(text) {
        let entry = match line_said(last, line.text) {
            Ok(entry) => entry,
            Err(why) => return Err(line.breaks(why)),
        };
        last = entry.kind();
        match push_entry(&mut ledger, line.number, entry) {
            Ok(()) => {}
            Err(_) => return Err(Failure::OutOfMemory),
        }
    }
    if !matches!(last, LineKind::Done) {
        let line = end_of(text);
        let why = LedgerWhy::Syntax;
        return Err(Failure::Fault(LineFault { line, why }));
    }
    Ok(ledger)
}

/// A ledger of which nothing was read.
fn empty_ledger(alloc: Global) -> Ledger
    ensures { ledger_seen result ≡ no_ledger }
{
    Ledger {
        idle: false,
        time: 0,
        environments: Vec::new(alloc),
        rows: Vec::new(alloc),
        sums: Vec::new(alloc),
        done: 0,
    }
}

/// Adds what a line says.
fn push_entry(ledger: &mut Ledger, line: u32, entry: Entry) -> Result<(), OutOfMemory>
    ensures { OnOk result (ledger_seen ledger.new ≡ with_entry line entry (ledger_seen ledger.old)) }
{
    match entry {
        Entry::Other(kind) => push_other(ledger, line, kind)?,
        Entry::End { idle, time } => {
            ledger.idle = idle;
            ledger.time = time;
        }
        Entry::Row(row) => ledger.rows.push((line, row))?,
        Entry::Sum(sum) => ledger.sums.push((line, sum))?,
    }
    Ok(())
}

/// Adds a line of which the first word is all that is read.
fn push_other(ledger: &mut Ledger, line: u32, kind: LineKind) -> Result<(), OutOfMemory>
    ensures { OnOk result (ledger_seen ledger.new ≡ with_kind line kind (ledger_seen ledger.old)) }
{
    match kind {
        LineKind::Env => ledger.environments.push(line)?,
        LineKind::Done => ledger.done = line,
        _ => {}
    }
    Ok(())
}
