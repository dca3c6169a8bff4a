//! The statements of a source.
ghost use Rattle.std.specs.Prelude.{◌≡◌, ℕ, ◌+◌, ◌^◌, ◌<◌, ◌≤◌, List, length, IfOk, IfSome};
ghost use Rattle.std.specs.Option.{option_copied};
ghost use Rattle.line_text.specs.LineView.{line_value};
ghost use Rattle.asm_parse.specs.Form.{body_named, body_of, due_of, label_of, before_mark, parsed, said, statement_of};
ghost use Rattle.line_text.specs.Failing.{Gives};
ghost use Rattle.asm_parse.specs.declared.quoting.Quoting.TheVariants.{Outside};
ghost use Rattle.asm_parse.specs.PieceSeen.{piece_seen};
ghost use Rattle.std.specs.List.{AllByRecursion};
ghost use Rattle.std.specs.Str.{byte};
ghost use Rattle.line_text.specs.Lines.{IsPlaced};
ghost use Rattle.asm_parse.specs.Span.{IsCut};

use crate::fault::AsmWhy;
use crate::marks::mark_place;
use crate::operands::operands;
use crate::piece::Piece;
use crate::syntax::{Args, AsmBody, AsmLine, Name};
use crate::words::{begins_name, name_length};
use line_text::{Line, TextFailure, cut, is_text};
use std::alloc::{AllocError, Global};

/// The statements of a source in the order of its lines, one for each line that has a statement. A fault
/// is `Syntax` at the first line of another form, or that memory ran out. The form is described in
/// `docs/ASSEMBLER.md`.
#[tactic(auto, using(crate::proofs::StatementLemmas::before_rest_none, crate::proofs::StatementLemmas::cut_more), unfolding(crate::specs::Form::parsed))]
pub fn parse(alloc: Global, source: &[u8]) -> Result<Vec<AsmLine<'_>>, TextFailure<AsmWhy>>
    requires { length source.now < 2 ^ 27 }
    // The statements, or the first line of another form.
    ensures said { Gives (λ lines. lines.items) result (parsed source.now) }
    // Each span cuts its statement or its operand out of the source.
    ensures spans { IfOk result (λ lines. AllByRecursion (IsCut source.now) lines.items) }
{
    let mut statements = Vec::new(alloc);
    for line in cut(source) {
        if let Some(statement) = parse_line(alloc, &line)? {
            statements.push(statement)?;
        }
    }
    Ok(statements)
}

/// The statement of a line, where it has one. A fault is `Syntax` where the line has another form, or
/// that memory ran out.
#[tactic(auto, unfolding(crate::specs::Form::parsed_line))]
pub fn parse_line<'a>(
    alloc: Global,
    line: &Line<'a>,
) -> Result<Option<AsmLine<'a>>, TextFailure<AsmWhy>>
    requires { line.now.start + length line.now.text.now < 2 ^ 32 }
    // The statement, if there is one, or that the line has another form.
    ensures said { Gives (λ said. said) result (due_of (line_value line.now)) }
    // In a source that has this line, each span cuts its statement or its operand out of it.
    ensures spans { (source : List ℕ) → IsPlaced source (line_value line.now) → IfOk result (λ said. IfSome said (IsCut source)) }
{
    let syntax = line.breaks(AsmWhy::Syntax);
    if !is_text(line.text) {
        return Err(syntax);
    }
    let piece = said(line);
    if piece.bytes.is_empty() {
        return Ok(None);
    }
    match statement(alloc, line.number, piece)? {
        Some(statement) => Ok(Some(statement)),
        None => Err(syntax),
    }
}

/// What a line has before its comment, without the blanks around it.
fn said<'a>(line: &Line<'a>) -> Piece<'a>
    requires { line.now.start + length line.now.text.now < 2 ^ 32 }
    ensures { piece_seen result ≡ said (line_value line.now) }
{
    Piece {
        start: line.start,
        bytes: before_comment(line.text),
    }
    .trimmed()
}

/// What stands before the first `#` outside quoted texts.
#[tactic(auto, using(crate::proofs::MarkLemmas::before_mark_front))]
fn before_comment(bytes: &[u8]) -> &[u8]
    ensures value { result.now ≡ before_mark (byte "#") Outside bytes.now }
    ensures within { length result.now ≤ length bytes.now }
{
    &bytes[..mark_place(bytes, b'#')]
}

/// The label and the operation of a line.
#[tactic(auto, unfolding(crate::specs::Form::statement_of))]
fn statement(
    alloc: Global,
    number: u32,
    piece: Piece<'_>,
) -> Result<Option<AsmLine<'_>>, AllocError>
    ensures { IfOk result (λ line. line ≡ statement_of number (piece_seen piece.entry)) }
{
    let (label, rest) = match label(piece.bytes) {
        Some(name) => (
            Some(Name::new(alloc, name)?),
            piece.skip(name.len() + 1).after_blanks(),
        ),
        None => (None, piece),
    };
    match body(alloc, rest)? {
        Some(body) => Ok(Some(AsmLine {
            line: number,
            start: piece.start,
            end: piece.end(),
            label,
            body,
        })),
        None => Ok(None),
    }
}

/// A name with a colon directly behind it.
#[tactic(auto, unfolding(crate::specs::Form::label_of))]
fn label(bytes: &[u8]) -> Option<&[u8]>
    ensures value { option_copied result ≡ label_of bytes.now }
    ensures within { IfSome result (λ name. length name.now < length bytes.now) }
{
    let (name, rest) = bytes.split_at(name_length(bytes));
    (begins_name(name) && rest.starts_with(b":")).then_some(name)
}

/// What follows a label: nothing, or a name and operands.
#[tactic(auto, unfolding(crate::specs::Form::body_of))]
fn body(alloc: Global, piece: Piece<'_>) -> Result<Option<AsmBody<'_>>, AllocError>
    ensures { IfOk result (λ body. body ≡ body_of (piece_seen piece.entry)) }
{
    if piece.bytes.is_empty() {
        return Ok(Some(AsmBody::Nothing));
    }
    let length = name_length(piece.bytes);
    let name = &piece.bytes[..length];
    if !begins_name(name) {
        return Ok(None);
    }
    match operands(alloc, piece.skip(length))? {
        Some(args) => Ok(Some(named(Name::new(alloc, name)?, args))),
        None => Ok(None),
    }
}

/// An operation by its name.
fn named(name: Name, args: Args<'_>) -> AsmBody<'_>
    ensures { result ≡ body_named name args.entry }
{
    if name.bytes().starts_with(b".") {
        AsmBody::Directive { name, args }
    } else {
        AsmBody::Op { name, args }
    }
}
