//! The words of a line, which blanks part, and which a comment ends.
ghost use Rattle.std.specs.Prelude.{◌≡◌, ℕ, ◌<◌, ◌≤◌, ◌∷◌, ◌==◌, Bool, true, not, length};
ghost use Rattle.std.specs.List.{list_all, position, position_or_len, prefix_len};
ghost use Rattle.line_text.specs.Characters.{is_blank};
ghost use Rattle.line_text.specs.Words.{before_comment, words_in, words_of};

use crate::characters::is_blank;
use std::marker::Model;

/// What a comment begins with.
pub(crate) const COMMENT: u8 = b'#';

/// The words of a line that are left.
#[derive(Drop)]
pub struct Words<'a> {
    rest: &'a [u8],
}

impl<'a> Model for Words<'a> {
    ghost use Rattle.std.specs.Prelude.{ℕ, List};
    ghost use Rattle.line_text.specs.Words.{words_in};

    ghost Value = { List (List ℕ) };

    ghost view = { λ words. words_in words.rest.now };
}

/// The words of a line in order: what spaces and tabs part, before the first `#`.
#[tactic(auto, using(crate::proofs::WordLemmas::all_words))]
pub fn words_of(line: &[u8]) -> Words<'_>
    ensures words { result ≡ words_of line.now }
    // What holds of each byte of the line holds of each byte of its words.
    ensures bytes { (test : ℕ → Bool) → list_all test line.now ≡ true → list_all (list_all test) result ≡ true }
{
    Words {
        rest: before_comment(line),
    }
}

impl<'a> Iterator for Words<'a> {
    ghost use Rattle.std.specs.Prelude.{ℕ, List};
    ghost use Rattle.std.specs.Iterator.{item_count, YieldsFirstBy};
    ghost use Rattle.line_text.specs.WordView.{word_seen};

    type Item = &'a [u8];

    ghost next_gives = { YieldsFirstBy word_seen (λ words. words) };

    ghost remaining = { item_count (λ words. words) };

    fn next(&mut self) -> Option<&'a [u8]> {
        let rest = without_blanks(self.rest);
        if rest.is_empty() {
            return None;
        }
        let (word, rest) = split_word(rest);
        self.rest = rest;
        Some(word)
    }
}

/// What stands before the comment.
#[tactic(auto, using(crate::proofs::FrontLemmas::first_place))]
fn before_comment(line: &[u8]) -> &[u8]
    ensures { result.now ≡ before_comment line.now }
{
    &line[..comment(line).unwrap_or(line.len())]
}

/// The place where the comment begins.
fn comment(line: &[u8]) -> Option<usize>
    ensures { result ≡ position (λ b. b == COMMENT) line.now }
{
    line.iter().position(|byte| *byte == COMMENT)
}

/// What follows the blanks at the front: nothing, or a word and what follows it.
#[tactic(auto, using(crate::proofs::WordLemmas::blanks_gone, crate::proofs::WordLemmas::words_left))]
fn without_blanks(bytes: &[u8]) -> &[u8]
    ensures words { words_in result.now ≡ words_in bytes.now }
    ensures solid { prefix_len is_blank result.now ≡ 0 }
{
    let (_, rest) = bytes.split_at(blanks_before(bytes));
    rest
}

/// The word that stands at the front, and what follows it.
#[tactic(auto, using(crate::proofs::WordLemmas::first_word))]
fn split_word(bytes: &[u8]) -> (&[u8], &[u8])
    requires some { 0 < length bytes.now }
    requires solid { prefix_len is_blank bytes.now ≡ 0 }
    ensures { words_in bytes.now ≡ result.0.now ∷ words_in result.1.now }
{
    bytes.split_at(word_length(bytes))
}

/// How many blanks stand at the front.
#[tactic(auto, using(crate::proofs::FrontLemmas::front_place))]
pub fn blanks_before(bytes: &[u8]) -> usize
    ensures count { result ≡ prefix_len is_blank bytes.now }
    ensures within { result ≤ length bytes.now }
{
    first_solid(bytes).unwrap_or(bytes.len())
}

/// The place of the first byte that is no blank.
fn first_solid(bytes: &[u8]) -> Option<usize>
    ensures { result ≡ position (λ b. not (is_blank b)) bytes.now }
{
    bytes.iter().position(|byte| !is_blank(*byte))
}

/// How many bytes stand before the first blank, or in all.
#[tactic(auto, using(crate::proofs::FrontLemmas::first_place))]
fn word_length(bytes: &[u8]) -> usize
    ensures count { result ≡ position_or_len is_blank bytes.now }
    ensures within { result ≤ length bytes.now }
{
    first_blank(bytes).unwrap_or(bytes.len())
}

/// The place of the first blank.
fn first_blank(bytes: &[u8]) -> Option<usize>
    ensures { result ≡ position is_blank bytes.now }
{
    bytes.iter().position(|byte| is_blank(*byte))
}
