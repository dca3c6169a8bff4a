//! The statements of a text: its lines that aren't empty, each with its number and its place.
ghost use Rattle.std.specs.Prelude.{◌≡◌, ◌+◌, ◌<◌, ◌^◌, length};
ghost use Rattle.line_text.specs.Lines.{lines_of};
ghost use Rattle.line_text.specs.Statements.{end_of, is_empty_line, statements_of};

use crate::characters::is_text;
use crate::line_words::{COMMENT, blanks_before, words_of};
use crate::lines::{Line, Lines, cut};
use std::marker::Model;

/// The statements of a text that are left.
#[derive(Drop)]
pub struct Statements<'a> {
    lines: Lines<'a>,
}

impl<'a> Model for Statements<'a> {
    ghost use Rattle.std.specs.Prelude.{List};
    ghost use Rattle.line_text.specs.Lines.{LineValue};
    ghost use Rattle.line_text.specs.Statements.{statements_of};

    ghost Value = { List LineValue };

    ghost view = { λ s. statements_of s.lines };
}

/// The statements of a text in order: each of its lines but those that are texts without words.
pub fn statements_of(text: &[u8]) -> Statements<'_>
    requires { length text.now < 2 ^ 27 }
    ensures { result ≡ statements_of (lines_of text.now) }
{
    Statements { lines: cut(text) }
}

impl<'a> Iterator for Statements<'a> {
    ghost use Rattle.std.specs.Iterator.{item_count, YieldsFirstBy};
    ghost use Rattle.line_text.specs.LineView.{line_value};

    type Item = Line<'a>;

    ghost next_gives = { YieldsFirstBy line_value (λ lines. lines) };

    ghost remaining = { item_count (λ lines. lines) };

    fn next(&mut self) -> Option<Line<'a>> {
        while let Some(line) = self.lines.next() {
            if !is_empty_line(line.text) {
                return Some(line);
            }
        }
        None
    }
}

/// The number of the line behind the last of a text.
#[tactic(auto, using(crate::proofs::LineLemmas::end_small))]
pub fn end_of(text: &[u8]) -> u32
    requires { length text.now < 2 ^ 27 }
    ensures { result ≡ end_of text.now }
{
    let mut end = 1;
    for _ in cut(text) {
        end += 1;
    }
    end
}

/// Whether a line is a text without words. It isn't where a word begins behind the blanks at its front.
fn is_empty_line(text: &[u8]) -> bool
    ensures { result ≡ is_empty_line text.now }
{
    let front = blanks_before(text);
    if front < text.len() && text[front] != COMMENT {
        return false;
    }
    words_of(text).next().is_none() && is_text(text)
}
