//! What the lines of a report say.
ghost use Rattle.std.specs.Prelude.{◌≡◌};
ghost use Rattle.ledger_text.specs.LedgerText.{end_form, end_said, kind_of, line_said, only_text, said_by, sum_form, sum_of};
ghost use Rattle.ledger_text.specs.Words.{spaced_words};

use crate::fault::LedgerWhy;
use crate::kind::{LineKind, kind_after, may_follow};
use crate::rows::{env_in, other_in, row_said, time_in};
use crate::words::{cut_word, few_words, is_numeral};
use kernel_journal::Row;

/// How a run ended that made all its ticks.
const LIMIT: &[u8] = b"limit";

/// How one ended because the board was idle.
const IDLE: &[u8] = b"idle";

/// The first word of an environment's sums.
const SUM: &[u8] = b"sum";

/// What a line says.
#[derive(Clone, Copy)]
pub enum Entry {
    /// Nothing of the ledger: a line of this kind.
    Other(LineKind),
    /// How the run ended, and when.
    End { idle: bool, time: u32 },
    /// A row.
    Row(Row),
    /// An environment's sums: its number, and how many rows of it are runs, pays and overs.
    Sum([u32; 4]),
}

impl Entry {
    /// The kind of its line.
    pub(crate) fn kind(self) -> LineKind
        ensures { result ≡ kind_of self }
    {
        match self {
            Entry::Other(kind) => kind,
            Entry::End { .. } => LineKind::End,
            Entry::Row(_) => LineKind::Row,
            Entry::Sum(_) => LineKind::Sum,
        }
    }
}

/// What a line says behind one of this kind.
pub(crate) fn line_said(last: LineKind, text: &[u8]) -> Result<Entry, LedgerWhy>
    ensures { result ≡ line_said last text.now }
{
    let (name, _) = cut_word(text);
    let kind = kind_after(last, name).ok_or(LedgerWhy::Syntax)?;
    if !may_follow(last, kind) {
        return Err(LedgerWhy::Syntax);
    }
    said_by(kind, text)
}

/// What a line of a kind says.
fn said_by(kind: LineKind, text: &[u8]) -> Result<Entry, LedgerWhy>
    ensures { result ≡ said_by kind text.now }
{
    match kind {
        LineKind::Title => only_text(kind, b"aegis run", text),
        LineKind::Done => only_text(kind, b"done", text),
        LineKind::End => end_said(text),
        LineKind::Row => Ok(Entry::Row(row_said(text)?)),
        LineKind::Sum => sum_said(text),
        _ => Ok(Entry::Other(kind)),
    }
}

/// A line that has just this text.
fn only_text(kind: LineKind, wanted: &[u8], text: &[u8]) -> Result<Entry, LedgerWhy>
    ensures { result ≡ only_text kind wanted.now text.now }
{
    if text == wanted {
        Ok(Entry::Other(kind))
    } else {
        Err(LedgerWhy::Syntax)
    }
}

/// How the run ended: `end limit TIME` or `end idle TIME`.
#[tactic(auto, using(crate::proofs::Forms::long_end))]
fn end_said(text: &[u8]) -> Result<Entry, LedgerWhy>
    ensures { result ≡ end_form (spaced_words text.now) }
{
    let Some(words) = few_words(text) else {
        return Err(LedgerWhy::Syntax);
    };
    match words.as_slice() {
        [_, how, time] if *how == LIMIT => end_at(false, time),
        [_, how, time] if *how == IDLE => end_at(true, time),
        _ => Err(LedgerWhy::Syntax),
    }
}

/// The end of a run at a time.
fn end_at(idle: bool, time: &[u8]) -> Result<Entry, LedgerWhy>
    ensures { result ≡ end_said idle time.now }
{
    if !is_numeral(time) {
        return Err(LedgerWhy::Syntax);
    }
    let time = time_in(time)?;
    Ok(Entry::End { idle, time })
}

/// The sums of an environment: `sum ENV RUNS PAYS OVERS`.
#[tactic(auto, using(crate::proofs::Forms::long_sum))]
fn sum_said(text: &[u8]) -> Result<Entry, LedgerWhy>
    ensures { result ≡ sum_form (spaced_words text.now) }
{
    let Some(words) = few_words(text) else {
        return Err(LedgerWhy::Syntax);
    };
    match words.as_slice() {
        [name, env, runs, pays, overs] if *name == SUM => sum_of(env, runs, pays, overs),
        _ => Err(LedgerWhy::Syntax),
    }
}

/// Four numbers as sums.
#[tactic(auto, unfolding(crate::specs::LedgerText::sum_of))]
fn sum_of(env: &[u8], runs: &[u8], pays: &[u8], overs: &[u8]) -> Result<Entry, LedgerWhy>
    ensures { result ≡ sum_of env.now runs.now pays.now overs.now }
{
    if !(is_numeral(env) && is_numeral(runs) && is_numeral(pays) && is_numeral(overs)) {
        return Err(LedgerWhy::Syntax);
    }
    let env = env_in(env)?;
    let runs = other_in(runs)?;
    let pays = other_in(pays)?;
    let overs = other_in(overs)?;
    Ok(Entry::Sum([env, runs, pays, overs]))
}
