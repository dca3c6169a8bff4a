//! The lines of a text, each with its number and its place.
ghost use Rattle.std.specs.Prelude.{◌≡◌, ◌+◌, ◌^◌, ◌<◌, ◌≤◌, ◌∷◌, ◌==◌, length, take, drop};
ghost use Rattle.std.specs.List.{AllByRecursion, position, position_or_len};
ghost use Rattle.line_text.specs.Lines.{IsPlaced, lines_of, pieces_of, without_end};

use std::marker::Model;

const LINE_FEED: u8 = b'\n';

/// A line of a text.
#[derive(Clone, Copy)]
pub struct Line<'a> {
    /// Its number, from 1.
    pub number: u32,
    /// The place of its first byte in the whole text.
    pub start: u32,
    /// Its bytes, without the line feed that ends it and a carriage return directly before that.
    pub text: &'a [u8],
}

/// The lines of a text that are left.
#[derive(Drop)]
pub struct Lines<'a> {
    rest: &'a [u8],
    number: u32,
    start: u32,
}

impl<'a> Model for Lines<'a> {
    ghost use Rattle.std.specs.Prelude.{◌+◌, ◌<◌, ◌≤◌, ◌^◌, List, length};
    ghost use Rattle.line_text.specs.Lines.{LineValue, lines_from, pieces_of};

    ghost Value = { List LineValue };

    ghost view = { λ l. lines_from l.number l.start (pieces_of l.rest.now) };

    ghost invariant = { λ l. (l.number ≤ l.start + 1) × (l.start + length l.rest.now < 2 ^ 27) };
}

/// The lines of a text in order, numbered from 1. A line feed ends a line; what follows the last one is
/// a line where it isn't empty.
#[tactic(auto, using(crate::proofs::PlaceLemmas::lines_placed))]
pub fn cut(text: &[u8]) -> Lines<'_>
    requires { length text.now < 2 ^ 27 }
    ensures lines { result ≡ lines_of text.now }
    ensures placed { AllByRecursion (IsPlaced text.now) result }
{
    Lines {
        rest: text,
        number: 1,
        start: 0,
    }
}

impl<'a> Iterator for Lines<'a> {
    ghost use Rattle.std.specs.Iterator.{item_count, YieldsFirstBy};
    ghost use Rattle.line_text.specs.LineView.{line_value};

    type Item = Line<'a>;

    ghost next_gives = { YieldsFirstBy line_value (λ lines. lines) };

    ghost remaining = { item_count (λ lines. lines) };

    fn next(&mut self) -> Option<Line<'a>> {
        if self.rest.is_empty() {
            return None;
        }
        let length = piece_length(self.rest);
        let (piece, rest) = self.rest.split_at(length);
        let line = Line {
            number: self.number,
            start: self.start,
            text: without_end(piece),
        };
        self.rest = rest;
        self.number += 1;
        self.start += length as u32;
        Some(line)
    }
}

/// The length of a text's first line with its line feed, where it has one.
#[tactic(auto, using(crate::proofs::PieceLemmas::pieces_cut))]
fn piece_length(text: &[u8]) -> usize
    requires { 0 < length text.now }
    ensures some { 0 < result }
    ensures within { result ≤ length text.now }
    ensures cut { pieces_of text.now ≡ take result text.now ∷ pieces_of (drop result text.now) }
{
    (before_line_feed(text) + 1).min(text.len())
}

/// How many bytes stand before the first line feed, or in all.
#[tactic(auto, using(crate::proofs::FrontLemmas::first_place))]
fn before_line_feed(text: &[u8]) -> usize
    ensures count { result ≡ position_or_len (λ b. b == LINE_FEED) text.now }
    ensures within { result ≤ length text.now }
{
    line_feed(text).unwrap_or(text.len())
}

/// The place of the first line feed.
fn line_feed(text: &[u8]) -> Option<usize>
    ensures { result ≡ position (λ b. b == LINE_FEED) text.now }
{
    text.iter().position(|b| *b == LINE_FEED)
}

/// A line without its end.
fn without_end(piece: &[u8]) -> &[u8]
    ensures { result.now ≡ without_end piece.now }
{
    if piece.ends_with(b"\r\n") {
        &piece[..piece.len() - 2]
    } else if piece.ends_with(b"\n") {
        &piece[..piece.len() - 1]
    } else {
        piece
    }
}
