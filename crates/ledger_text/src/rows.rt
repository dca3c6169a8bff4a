//! The rows of a ledger as they are read, and the numbers of other lines.
ghost use Rattle.std.specs.Prelude.{◌≡◌, ◌≤◌, IfOk, length, map};
ghost use Rattle.std.specs.List.{list_all};
ghost use Rattle.line_text.specs.WordView.{words_seen};
ghost use Rattle.ledger_text.specs.Limits.{last_environment};
ghost use Rattle.ledger_text.specs.RowText.{env_in, is_said, number_said, other_in, row_said, row_told, time_in};
ghost use Rattle.ledger_text.specs.Words.{spaced_words};

use crate::fault::LedgerWhy;
use crate::words::{MOST_WORDS, few_words, is_dash, is_numeral, number_in};
use aegis_limits::{MOST_ENVIRONMENTS, MOST_RUN_TICKS};
use arrayvec::ArrayVec;
use kernel_journal::{Row, RowFault};
use line_text::numeral;

/// The highest number of an environment in a ledger.
const LAST_ENVIRONMENT: u32 = MOST_ENVIRONMENTS as u32 - 1;

/// In place of a number that is too large for any row.
const TOO_LARGE: u64 = u32::MAX as u64 + 1;

/// The row of a line: its name, and its numbers.
#[tactic(auto, using(crate::proofs::Forms::long_row))]
pub(crate) fn row_said(text: &[u8]) -> Result<Row, LedgerWhy>
    ensures { result ≡ row_said (spaced_words text.now) }
{
    let Some(words) = few_words(text) else {
        return Err(LedgerWhy::Syntax);
    };
    match words.as_slice().split_first() {
        Some((name, numbers)) => row_told(name, numbers),
        None => Err(LedgerWhy::Syntax),
    }
}

/// The row of a name and of words, if these stand for numbers.
#[tactic(auto, using(crate::proofs::Forms::each_seen))]
fn row_told(name: &[u8], words: &[&[u8]]) -> Result<Row, LedgerWhy>
    requires { length words.now ≤ MOST_WORDS }
    ensures { result ≡ row_told name.now (words_seen words.now) }
{
    if !are_said(words) {
        return Err(LedgerWhy::Syntax);
    }
    match Row::of(name, numbers_said(words).as_slice()) {
        Ok(row) => Ok(row),
        Err(RowFault::Form) => Err(LedgerWhy::Syntax),
        Err(RowFault::Range) => Err(LedgerWhy::Range),
    }
}

/// Whether each word stands for a number, or for none.
fn are_said(words: &[&[u8]]) -> bool
    ensures { result ≡ list_all (λ word. is_said word.now) words.now }
{
    words.iter().all(|word| is_said(word))
}

/// Whether a word stands for a number, or for none.
fn is_said(word: &[u8]) -> bool
    ensures { result ≡ is_said word.now }
{
    is_dash(word) || is_numeral(word)
}

/// The numbers for which words stand.
fn numbers_said(words: &[&[u8]]) -> ArrayVec<Option<u64>, MOST_WORDS>
    requires { length words.now ≤ MOST_WORDS }
    ensures { result.items ≡ map number_said (words_seen words.now) }
{
    let mut numbers = ArrayVec::new();
    for word in words {
        numbers.push(number_said(word));
    }
    numbers
}

/// The number for which a word stands, or none.
fn number_said(word: &[u8]) -> Option<u64>
    ensures { result ≡ number_said word.now }
{
    if is_dash(word) {
        return None;
    }
    Some(numeral(word, 10, u32::MAX).map_or(TOO_LARGE, u64::from))
}

/// A time, in ticks.
pub(crate) fn time_in(word: &[u8]) -> Result<u32, LedgerWhy>
    ensures value { result ≡ time_in word.now }
    ensures within { IfOk result (λ n. n ≤ MOST_RUN_TICKS) }
{
    number_in(word, MOST_RUN_TICKS)
}

/// An environment's number.
pub(crate) fn env_in(word: &[u8]) -> Result<u32, LedgerWhy>
    ensures value { result ≡ env_in word.now }
    ensures within { IfOk result (λ n. n ≤ last_environment) }
{
    number_in(word, LAST_ENVIRONMENT)
}

/// Any other number.
pub(crate) fn other_in(word: &[u8]) -> Result<u32, LedgerWhy>
    ensures { result ≡ other_in word.now }
{
    number_in(word, u32::MAX)
}
