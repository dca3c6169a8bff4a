//! What statements ask for.
ghost use Rattle.std.specs.Prelude.{◌≡◌, map};
ghost use Rattle.asm_parse.specs.Seen.{arg_seen, expression_seen};
ghost use Rattle.asm_layout.specs.Action.{Put, action_of, directed, number_in, text_in, values_in, written_name};
ghost use Rattle.asm_layout.specs.Content.{Instruction};
ghost use Rattle.asm_parse.specs.declared.syntax.AsmBody.TheVariants.{Op};
ghost use Rattle.asm_layout.specs.declared.directive.Directive.TheVariants.{Equ};
ghost use Rattle.line_text.specs.Failing.{Gives};
ghost use Rattle.line_text.specs.Outcome.{ok_seen};
ghost use Rattle.asm_layout.specs.Seen.{action_seen, draft_seen, expressions_seen, operands_seen};

use crate::content::Content;
use crate::directive::Directive;
use crate::draft::Draft;
use crate::number::NumberSize;
use crate::section::Section;
use asm_parse::{Arg, AsmBody, AsmWhy, Expression, Inner, Name, Operand};
use line_text::Failure;
use mips_text::find_text;
use std::alloc::Global;

/// What a statement asks for.
#[derive(Drop)]
pub(crate) enum Action<'a> {
    /// To put a content at the place.
    Put(Content<'a>),
    /// To put zeros up to a multiple of this power of 2.
    Align(u32),
    /// To go on in a section.
    Enter(Section),
    /// To give a name the value of an expression.
    Define(&'a [u8], Expression<'a>),
}

/// What an operation in a section asks for. The fault is Syntax or UnknownName,
/// or that memory ran out.
#[tactic(auto, unfolding(crate::specs::Action::action_of))]
pub(crate) fn read_action<'a>(
    alloc: Global,
    section: Section,
    body: &AsmBody<'a>,
) -> Result<Action<'a>, Failure<AsmWhy>>
    ensures { Gives action_seen result (action_of section body.now) }
{
    match body {
        AsmBody::Nothing => Ok(Action::Put(Content::Zeros(0))),
        AsmBody::Op { name, args } => {
            let draft = instruction(section, name, args.list())?;
            Ok(Action::Put(Content::Instruction(draft)))
        }
        AsmBody::Directive { name, args } => match Directive::named(name.bytes()) {
            Some(directive) => directed(alloc, directive, args.list()),
            None => Err(Failure::Fault(AsmWhy::UnknownName)),
        },
    }
}

/// The instruction that an operation in a section asks for.
#[tactic(auto, unfolding(crate::specs::Action::action_of))]
fn instruction<'a>(section: Section, name: &Name, operands: &[Arg<'a>]) -> Result<Draft<'a>, AsmWhy>
    ensures { ok_seen (λ draft. Put (Instruction (draft_seen draft))) result ≡ action_of section (Op name.now (map arg_seen operands.now)) }
{
    let text = find_text(name.bytes()).ok_or(AsmWhy::UnknownName)?;
    match section {
        Section::Text => Draft::new(text, operands),
        Section::Data => Err(AsmWhy::Syntax),
    }
}

/// What a directive with these operands asks for.
#[tactic(auto, unfolding(crate::specs::Action::directed))]
fn directed<'a>(
    alloc: Global,
    directive: Directive,
    operands: &[Arg<'a>],
) -> Result<Action<'a>, Failure<AsmWhy>>
    ensures { Gives action_seen result (directed directive (operands_seen operands.now)) }
{
    match directive {
        Directive::Enter(section) if operands.is_empty() => Ok(Action::Enter(section)),
        Directive::Numbers(size) if !operands.is_empty() => {
            let expressions = values(alloc, operands)?;
            Ok(Action::Put(Content::Numbers(size, expressions)))
        }
        Directive::Enter(_) | Directive::Numbers(_) => Err(Failure::Fault(AsmWhy::Syntax)),
        Directive::Ascii => text(alloc, b"", operands),
        Directive::Asciiz => text(alloc, b"\0", operands),
        Directive::Space => Ok(Action::Put(Content::Zeros(number(operands)?))),
        Directive::Align => Ok(Action::Align(number(operands)?)),
        Directive::Equ => define(operands),
    }
}

/// Each operand an expression.
fn values<'a>(alloc: Global, operands: &[Arg<'a>]) -> Result<Vec<Expression<'a>>, Failure<AsmWhy>>
    ensures { Gives (λ v. expressions_seen v.items) result (values_in (operands_seen operands.now)) }
{
    let mut values = Vec::with_capacity(alloc, operands.len())?;
    for arg in operands {
        match &arg.operand {
            Operand::Value(value) => values.push(*value)?,
            _ => return Err(Failure::Fault(AsmWhy::Syntax)),
        }
    }
    Ok(values)
}

/// To put the bytes that a quoted text means, and an ending behind them.
fn text<'a>(
    alloc: Global,
    ending: &[u8],
    operands: &[Arg<'a>],
) -> Result<Action<'a>, Failure<AsmWhy>>
    ensures { Gives action_seen result (text_in ending.now (operands_seen operands.now)) }
{
    let [a] = operands else {
        return Err(Failure::Fault(AsmWhy::Syntax));
    };
    let Operand::Quoted(text) = &a.operand else {
        return Err(Failure::Fault(AsmWhy::Syntax));
    };
    let mut bytes = Vec::from_slice(alloc, text)?;
    bytes.extend_from_slice(ending)?;
    Ok(Action::Put(Content::Bytes(bytes)))
}

/// The number that the one operand is written as.
fn number(operands: &[Arg<'_>]) -> Result<u32, Failure<AsmWhy>>
    ensures { Gives (λ number. number) result (number_in (operands_seen operands.now)) }
{
    let [a] = operands else {
        return Err(Failure::Fault(AsmWhy::Syntax));
    };
    match &a.operand {
        Operand::Value(
            Expression {
                openings,
                inner: Inner::Number(number),
            },
        ) if openings.is_empty() => Ok(*number),
        _ => Err(Failure::Fault(AsmWhy::Syntax)),
    }
}

/// The name that an expression is written as.
fn written_name<'a>(expression: &Expression<'a>) -> Result<&'a [u8], AsmWhy>
    ensures { ok_seen (λ name. name.now) result ≡ written_name (expression_seen expression.now) }
{
    match expression.inner {
        Inner::Name(name) if expression.openings.is_empty() => Ok(name),
        _ => Err(AsmWhy::Syntax),
    }
}

/// To give a name the value of an expression.
#[tactic(auto, unfolding(crate::specs::Action::directed))]
fn define<'a>(operands: &[Arg<'a>]) -> Result<Action<'a>, Failure<AsmWhy>>
    ensures { Gives action_seen result (directed Equ (operands_seen operands.now)) }
{
    let [a, b] = operands else {
        return Err(Failure::Fault(AsmWhy::Syntax));
    };
    match (&a.operand, &b.operand) {
        (Operand::Value(name), Operand::Value(value)) => {
            Ok(Action::Define(written_name(name)?, *value))
        }
        _ => Err(Failure::Fault(AsmWhy::Syntax)),
    }
}
