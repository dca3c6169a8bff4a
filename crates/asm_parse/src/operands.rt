//! Operands.
ghost use Rattle.std.specs.Prelude.{◌≡◌, ◌+◌, ◌<◌, ◌≤◌, ◌==◌, length, IfOk};
ghost use Rattle.std.specs.List.{position, position_or_len};
ghost use Rattle.std.specs.Str.{byte};
ghost use Rattle.std.specs.Option.{option_map};
ghost use Rattle.asm_parse.specs.Form.{arg_of, args_at, operands_of};
ghost use Rattle.asm_parse.specs.Operand.{based_of, offset_of, operand_of};
ghost use Rattle.asm_parse.specs.PieceSeen.{piece_seen};
ghost use Rattle.asm_parse.specs.Seen.{arg_seen, expression_seen, operand_seen};

use crate::expression::{Expression, read_expression, zero};
use crate::marks::mark_place;
use crate::piece::Piece;
use crate::quoted::unquoted;
use crate::register::Register;
use crate::syntax::{Arg, Args, Operand};
use crate::words::is_register;
use line_text::blanks_before;
use std::alloc::{AllocError, Global};

/// The operand that bytes are, if they are one.
#[tactic(auto, unfolding(crate::specs::Operand::operand_of))]
fn read_operand(alloc: Global, bytes: &[u8]) -> Result<Option<Operand<'_>>, AllocError>
    ensures { IfOk result (λ found. option_map operand_seen found ≡ operand_of bytes.now) }
{
    if is_register(bytes) {
        return Ok(Some(Operand::Register(Register::read(bytes))));
    }
    if let Some(value) = read_expression(bytes) {
        return Ok(Some(Operand::Value(value)));
    }
    if let Some(based) = read_based(bytes) {
        return Ok(Some(based));
    }
    match unquoted(alloc, bytes)? {
        Some(text) => Ok(Some(Operand::Quoted(text))),
        None => Ok(None),
    }
}

/// A register in brackets with an expression or nothing before it, if bytes are that.
#[tactic(auto, unfolding(crate::specs::Operand::based_of))]
fn read_based(bytes: &[u8]) -> Option<Operand<'_>>
    ensures { option_map operand_seen result ≡ based_of bytes.now }
{
    let (front, back) = bytes.split_at(dollar_place(bytes));
    if !front.ends_with(b"(") || !back.ends_with(b")") {
        return None;
    }
    let offset = &front[..front.len() - 1];
    let register = &back[..back.len() - 1];
    if !is_register(register) {
        return None;
    }
    Some(Operand::Based(read_offset(offset)?, Register::read(register)))
}

/// The expression before brackets, which is 0 where nothing stands there.
fn read_offset(bytes: &[u8]) -> Option<Expression<'_>>
    ensures { option_map expression_seen result ≡ offset_of bytes.now }
{
    if bytes.is_empty() {
        Some(zero())
    } else {
        read_expression(bytes)
    }
}

/// The place of the first `$`, or the length where there is none.
#[tactic(auto, using(line_text::proofs::FrontLemmas::first_place))]
fn dollar_place(bytes: &[u8]) -> usize
    ensures place { result ≡ position_or_len (λ b. b == byte "$") bytes.now }
    ensures within { result ≤ length bytes.now }
{
    first_dollar(bytes).unwrap_or(bytes.len())
}

/// The place of the first `$`.
fn first_dollar(bytes: &[u8]) -> Option<usize>
    ensures { result ≡ position (λ b. b == byte "$") bytes.now }
{
    bytes.iter().position(|byte| *byte == b'$')
}

/// The operands behind a name, if they have the form: none, or a blank and then operands with a comma
/// between each two.
#[tactic(auto, unfolding(crate::specs::Form::operands_of))]
pub(crate) fn operands(alloc: Global, piece: Piece<'_>) -> Result<Option<Args<'_>>, AllocError>
    ensures { IfOk result (λ args. args ≡ operands_of (piece_seen piece.entry)) }
{
    if piece.bytes.is_empty() {
        return Ok(Some(Args::of(Vec::new(alloc))));
    }
    if blanks_before(piece.bytes) == 0 {
        return Ok(None);
    }
    operand_list(alloc, piece)
}

/// Operands with a comma between each two, if each has a form.
fn operand_list(alloc: Global, piece: Piece<'_>) -> Result<Option<Args<'_>>, AllocError>
    ensures { IfOk result (λ args. args ≡ args_at (piece_seen piece.entry)) }
{
    let mut list = Vec::new(alloc);
    let mut rest = piece;
    loop {
        let place = mark_place(rest.bytes, b',');
        match arg(alloc, rest.front(place))? {
            Some(arg) => list.push(arg)?,
            None => return Ok(None),
        }
        if place == rest.bytes.len() {
            return Ok(Some(Args::of(list)));
        }
        rest = rest.skip(place + 1);
    }
}

/// An operand, which blanks may stand around.
#[tactic(auto, unfolding(crate::specs::Form::arg_of))]
fn arg(alloc: Global, piece: Piece<'_>) -> Result<Option<Arg<'_>>, AllocError>
    ensures { IfOk result (λ found. option_map arg_seen found ≡ arg_of (piece_seen piece.entry)) }
{
    let inner = piece.trimmed();
    match read_operand(alloc, inner.bytes)? {
        Some(operand) => Ok(Some(Arg {
            operand,
            start: inner.start,
            end: inner.end(),
        })),
        None => Ok(None),
    }
}
