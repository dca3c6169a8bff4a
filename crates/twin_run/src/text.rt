//! The text of an answer.
ghost use Rattle.std.specs.Prelude.{◌≡◌, ◌++◌, [], ◌∷◌, IfOk, OnOk, codes};
ghost use Rattle.line_text.specs.Text.{dec_text};
ghost use Rattle.line_text.specs.WrittenLine.{line};
ghost use Rattle.twin_run.specs.Text.{side_name, twin_text};

use crate::answer::{Side, TwinAnswer};
use aegis_limits::OutOfMemory;
use line_text::{Word, push_line};
use std::alloc::Global;

/// The name of a side.
fn side_name(side: Side) -> &'static [u8]
    ensures { result.now ≡ side_name side }
{
    match side {
        Side::Left => b"left",
        Side::Right => b"right",
    }
}

/// Appends a line of a name, a word and a number.
#[tactic(auto, unfolding(line_text::specs::WrittenLine::line_of))]
fn push_short(out: &mut Vec<u8>, which: Side, slices: u32) -> Result<(), OutOfMemory>
    ensures { OnOk result (out.new.items ≡ out.old.items ++ line (codes "short" ∷ side_name which ∷ dec_text slices ∷ [])) }
{
    let side = Word::Text(side_name(which));
    push_line(out, b"short", &[side, Word::Number(u64::from(slices))])
}

/// Appends the line of feeds that are the same.
#[tactic(auto, unfolding(line_text::specs::WrittenLine::line_of))]
fn push_same(out: &mut Vec<u8>, env: u8, fingerprint: &[u8]) -> Result<(), OutOfMemory>
    ensures { OnOk result (out.new.items ≡ out.old.items ++ line (codes "same" ∷ dec_text env ∷ fingerprint.now ∷ [])) }
{
    let number = Word::Number(u64::from(env));
    push_line(out, b"same", &[number, Word::Text(fingerprint)])
}

/// Appends the line of the place where feeds differ, and one for each of the items there.
#[tactic(auto, unfolding(line_text::specs::WrittenLine::line_of))]
fn push_differ(out: &mut Vec<u8>, index: u64, left: &[u8], right: &[u8]) -> Result<(), OutOfMemory>
    ensures { OnOk result (out.new.items ≡ out.old.items ++ line (codes "differ" ∷ dec_text index ∷ []) ++ line (left.now ∷ []) ++ line (right.now ∷ [])) }
{
    push_line(out, b"differ", &[Word::Number(index)])?;
    push_line(out, left, &[])?;
    push_line(out, right, &[])
}

/// The text of an answer about an environment (`docs/REPORT.md`, "Two runs compared").
pub fn twin_text(alloc: Global, env: u8, answer: &TwinAnswer) -> Result<Vec<u8>, OutOfMemory>
    ensures { IfOk result (λ text. text.items ≡ twin_text env answer.now) }
{
    let mut out = Vec::new(alloc);
    match answer {
        TwinAnswer::Same { fingerprint } => push_same(&mut out, env, fingerprint)?,
        TwinAnswer::FeedsDiffer { index, left, right } => {
            push_differ(&mut out, *index, left.bytes(), right.bytes())?;
        }
        TwinAnswer::NotReached { which, slices } => push_short(&mut out, *which, *slices)?,
    }
    Ok(out)
}
