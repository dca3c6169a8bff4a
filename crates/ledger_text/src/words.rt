//! The words of a line, which single spaces part, and the numbers that they spell.
ghost use Rattle.std.specs.Prelude.{◌≡◌, ◌≤◌, ◌<◌, ◌∷◌, length, IfNone, IfOk, IfSome};
ghost use Rattle.std.specs.List.{before_first, list_all, position};
ghost use Rattle.line_text.specs.WordView.{words_seen};
ghost use Rattle.ledger_text.specs.Words.{is_dash, is_decimal, is_numeral, is_space, number_in, words_left, spaced_words};

use crate::fault::LedgerWhy;
use arrayvec::ArrayVec;
use line_text::numeral;

/// The most words that a line of some form has.
pub(crate) const MOST_WORDS: usize = 5;

/// What stands in place of a number that there isn't.
const DASH: &[u8] = b"-";

/// The words of a line, if it has no more than five.
pub(crate) fn few_words(text: &[u8]) -> Option<ArrayVec<&[u8], MOST_WORDS>>
    ensures some { IfSome result (λ words. words_seen words.items ≡ spaced_words text.now) }
    ensures none { IfNone result (5 < length (spaced_words text.now)) }
{
    let mut words = ArrayVec::new();
    let mut left = Some(text);
    'words: while let Some(rest) = left {
        let (word, behind) = cut_word(rest);
        if words.is_full() {
            return None;
        }
        words.push(word);
        left = behind;
    }
    Some(words)
}

/// The first word, and what stands behind the space that ends it, if one does.
#[tactic(auto, using(crate::proofs::Cutting::cut_behind, crate::proofs::Cutting::cut_none))]
pub(crate) fn cut_word(text: &[u8]) -> (&[u8], Option<&[u8]>)
    ensures words { spaced_words text.now ≡ result.0.now ∷ words_left result.1 }
    ensures first { result.0.now ≡ before_first is_space text.now }
{
    match first_space(text) {
        Some(at) => (&text[..at], Some(&text[at + 1..])),
        None => (text, None),
    }
}

/// The place of the first space.
fn first_space(text: &[u8]) -> Option<usize>
    ensures { result ≡ position is_space text.now }
{
    text.iter().position(|byte| *byte == b' ')
}

/// Whether a word is one or more decimal digits.
pub(crate) fn is_numeral(word: &[u8]) -> bool
    ensures { result ≡ is_numeral word.now }
{
    !word.is_empty() && are_decimals(word)
}

/// Whether bytes all are decimal digits.
fn are_decimals(bytes: &[u8]) -> bool
    ensures { result ≡ list_all is_decimal bytes.now }
{
    bytes.iter().all(|byte| is_decimal(*byte))
}

/// Whether it is a decimal digit.
fn is_decimal(byte: u8) -> bool
    ensures { result ≡ is_decimal byte }
{
    matches!(byte, b'0'..=b'9')
}

/// Whether it stands in place of a number that there isn't.
pub(crate) fn is_dash(word: &[u8]) -> bool
    ensures { result ≡ is_dash word.now }
{
    word == DASH
}

/// The number that digits spell, at most so much.
pub(crate) fn number_in(word: &[u8], most: u32) -> Result<u32, LedgerWhy>
    ensures value { result ≡ number_in most word.now }
    ensures within { IfOk result (λ n. n ≤ most) }
{
    numeral(word, 10, most).ok_or(LedgerWhy::Range)
}
