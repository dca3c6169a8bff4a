//! Expressions, read without recursion.
ghost use Rattle.std.specs.Prelude.{◌≡◌, [], ◌∷◌, ◌==◌};
ghost use Rattle.std.specs.List.{list_all};
ghost use Rattle.std.specs.Str.{byte};
ghost use Rattle.std.specs.Option.{option_map, option_copied};
ghost use Rattle.asm_parse.specs.Seen.{expression_seen, inner_seen};
ghost use Rattle.asm_parse.specs.Expression.{Number, expression_of, inner_of, named, literal_value, without_closings};

use crate::openings::{OPENING_LENGTH, Openings, opening_count};
use crate::words::{begins_name, name_length};
use line_text::numeral;

/// An expression: the halves that it takes of what stands inside.
#[derive(Clone, Copy)]
pub struct Expression<'a> {
    /// The halves, by the openings `hi(` and `lo(`.
    pub openings: Openings<'a>,
    /// What stands inside the last of the openings.
    pub inner: Inner<'a>,
}

/// An expression without brackets. Numbers count modulo 2^32.
#[derive(Clone, Copy)]
pub enum Inner<'a> {
    /// A number.
    Number(u32),
    /// A name, which stands for its value.
    Name(&'a [u8]),
    /// A name and a number that is added to its value.
    Sum {
        /// The name.
        name: &'a [u8],
        /// The number that is added: minus a number that is taken away.
        number: u32,
    },
}

/// The number 0.
pub(crate) fn zero() -> Expression<'static>
    ensures { expression_seen result ≡ record { halves = []; inner = Number 0 } }
{
    Expression {
        openings: Openings {
            bytes: b"",
            depth: 0,
        },
        inner: Inner::Number(0),
    }
}

/// The largest number that may stand behind a minus sign.
const MOST_NEGATIVE: u32 = 1 << 31;

/// The expression that bytes are, if they are one. Brackets may nest to any depth.
#[tactic(auto, unfolding(crate::specs::Expression::expression_of))]
pub(crate) fn read_expression(bytes: &[u8]) -> Option<Expression<'_>>
    ensures { option_map expression_seen result ≡ expression_of bytes.now }
{
    let depth = opening_count(bytes);
    let inside = without_closings(&bytes[OPENING_LENGTH * depth..], depth)?;
    let inner = read_inner(inside)?;
    let openings = Openings { bytes, depth };
    Some(Expression { openings, inner })
}

/// Bytes less so many closing brackets at their end.
fn without_closings(bytes: &[u8], depth: usize) -> Option<&[u8]>
    ensures { option_copied result ≡ without_closings depth bytes.now }
{
    if depth > bytes.len() {
        return None;
    }
    let (inside, closings) = bytes.split_at(bytes.len() - depth);
    are_closings(closings).then_some(inside)
}

/// Whether each byte is a closing bracket.
fn are_closings(bytes: &[u8]) -> bool
    ensures { result ≡ list_all (λ b. b == byte ")") bytes.now }
{
    bytes.iter().all(|byte| *byte == b')')
}

/// What stands inside the brackets.
#[tactic(auto, unfolding(crate::specs::Expression::inner_of))]
fn read_inner(bytes: &[u8]) -> Option<Inner<'_>>
    ensures { option_map inner_seen result ≡ inner_of bytes.now }
{
    if !begins_name(bytes) {
        return Some(Inner::Number(number(bytes)?));
    }
    let (name, rest) = bytes.split_at(name_length(bytes));
    match rest {
        [] => Some(Inner::Name(name)),
        [sign, digits @ ..] => sum(name, *sign, digits),
    }
}

/// A name, and behind it a sign and a number.
fn sum<'a>(name: &'a [u8], sign: u8, digits: &[u8]) -> Option<Inner<'a>>
    ensures { option_map inner_seen result ≡ named name.now (sign ∷ digits.now) }
{
    let number = number(digits)?;
    match sign {
        b'+' => Some(Inner::Sum { name, number }),
        b'-' => Some(Inner::Sum {
            name,
            number: number.wrapping_neg(),
        }),
        _ => None,
    }
}

/// The number modulo 2^32 that bytes are, if they are one from -2^31 to 2^32 - 1.
#[tactic(auto, unfolding(crate::specs::Expression::literal_value))]
fn number(bytes: &[u8]) -> Option<u32>
    ensures { result ≡ literal_value bytes.now }
{
    if let Some(digits) = bytes.strip_prefix(b"0x") {
        return numeral(digits, 16, u32::MAX);
    }
    if let Some(digits) = bytes.strip_prefix(b"-") {
        return Some(numeral(digits, 10, MOST_NEGATIVE)?.wrapping_neg());
    }
    numeral(bytes, 10, u32::MAX)
}
