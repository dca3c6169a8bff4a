//! The bytes of statements.
ghost use Rattle.std.specs.Prelude.{◌≡◌, ◌+◌, ◌<◌, ◌^◌, ◌++◌, OnOk};
ghost use Rattle.std.specs.List.{flat_map, list_all};
ghost use Rattle.line_text.specs.Failing.{Gives};
ghost use Rattle.asm_layout.specs.Seen.{content_seen, draft_seen, expressions_seen, placed_seen};
ghost use Rattle.mips_asm.specs.Emission.{bytes_of, draft_bytes, expressions_bytes, values_of};
ghost use Rattle.mips_asm.specs.Number.{number_bytes, number_fits};
ghost use Rattle.mips_asm.specs.Second.{earlier, emitted, onto, start_fault_of, unless_start_failure};

use crate::number::{fits, push_number};
use crate::words::push_draft;
use asm_layout::{Content, Draft, Names, NumberSize, Placed, Section, defined};
use asm_parse::{AsmWhy, Expression};
use line_text::Failure;
use std::alloc::{AllocError, Global};

/// Puts the bytes of a statement at the end, in a text of so many bytes. The fault is Undefined,
/// Unaligned or OutOfRange, or that memory ran out.
#[tactic(auto, using(crate::proofs::EmissionLemmas::emit_gives), unfolding(crate::specs::Second::emitted))]
pub(crate) fn emit(
    out: &mut Vec<u8>,
    alloc: Global,
    names: &Names,
    size: u32,
    placed: &Placed<'_>,
) -> Result<(), Failure<AsmWhy>>
    ensures { Gives (λ _. out.new.items) result (onto out.old.items (emitted names.now size (placed_seen placed.now))) }
{
    let start = start_fault_of(size, placed);
    let pushed = push_content(out, alloc, names, placed);
    unless_start(start, pushed)
}

/// An answer, where nothing is wrong with `start`.
fn unless_start(
    start: Option<AsmWhy>,
    answer: Result<(), Failure<AsmWhy>>,
) -> Result<(), Failure<AsmWhy>>
    ensures { result ≡ unless_start_failure start answer }
{
    let Some(why) = start else {
        return answer;
    };
    match answer {
        Ok(()) => Err(Failure::Fault(why)),
        Err(Failure::Fault(other)) => Err(Failure::Fault(earlier(other, why))),
        Err(Failure::OutOfMemory) => Err(Failure::OutOfMemory),
    }
}

/// Of two causes in a line, the second of which is `start`'s, the earlier one.
fn earlier(why: AsmWhy, other: AsmWhy) -> AsmWhy
    ensures { result ≡ earlier why other }
{
    match why {
        AsmWhy::OutOfRange => other,
        _ => why,
    }
}

/// What is wrong with `start`, where it is the label of a statement, in a text of so many bytes.
fn start_fault_of(size: u32, placed: &Placed<'_>) -> Option<AsmWhy>
    ensures { result ≡ start_fault_of size (placed_seen placed.now) }
{
    let base = Section::Text.base();
    let place = placed.place;
    if !placed.is_start {
        None
    } else if place % 4 != 0 {
        Some(AsmWhy::Unaligned)
    } else if place < base || place - base >= size {
        Some(AsmWhy::OutOfRange)
    } else {
        None
    }
}

/// Puts the bytes of a statement's content at the end.
#[tactic(auto, unfolding(crate::specs::Emission::bytes_of))]
fn push_content(
    out: &mut Vec<u8>,
    alloc: Global,
    names: &Names,
    placed: &Placed<'_>,
) -> Result<(), Failure<AsmWhy>>
    ensures { Gives (λ _. out.new.items) result (onto out.old.items (bytes_of names.now placed.now.place (content_seen placed.now.content))) }
{
    match &placed.content {
        Content::Instruction(draft) => push_draft(out, names, placed.place, *draft),
        Content::Numbers(size, numbers) => push_expressions(out, alloc, names, *size, numbers),
        Content::Bytes(bytes) => Ok(out.extend_from_slice(bytes)?),
        Content::Zeros(count) => Ok(out.resize(out.len() + *count as usize, 0)?),
    }
}

/// Puts the values of expressions at the end. The fault is Undefined or OutOfRange.
fn push_expressions(
    out: &mut Vec<u8>,
    alloc: Global,
    names: &Names,
    size: NumberSize,
    expressions: &[Expression<'_>],
) -> Result<(), Failure<AsmWhy>>
    ensures { Gives (λ _. out.new.items) result (onto out.old.items (expressions_bytes names.now size (expressions_seen expressions.now))) }
{
    let values = values(alloc, names, expressions)?;
    if !all_fit(size, &values) {
        return Err(Failure::Fault(AsmWhy::OutOfRange));
    }
    Ok(push_all(out, size, &values)?)
}

/// The values of expressions. The fault is Undefined.
fn values(
    alloc: Global,
    names: &Names,
    expressions: &[Expression<'_>],
) -> Result<Vec<u32>, Failure<AsmWhy>>
    ensures { Gives (λ v. v.items) result (values_of names.now (expressions_seen expressions.now)) }
{
    let mut values = Vec::with_capacity(alloc, expressions.len())?;
    for expression in expressions {
        values.push(defined(names, *expression)?)?;
    }
    Ok(values)
}

/// Whether each value lies in the range of such numbers.
fn all_fit(size: NumberSize, values: &[u32]) -> bool
    ensures { result ≡ list_all (number_fits size) values.now }
{
    values.iter().all(|value| fits(size, *value))
}

/// Puts numbers at the end.
fn push_all(out: &mut Vec<u8>, size: NumberSize, values: &[u32]) -> Result<(), AllocError>
    ensures { OnOk result (out.new.items ≡ out.old.items ++ flat_map (number_bytes size) values.now) }
{
    for value in values {
        push_number(out, size, *value)?;
    }
    Ok(())
}
