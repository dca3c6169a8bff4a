//! Values of expressions.
ghost use Rattle.std.specs.Prelude.{◌≡◌};
ghost use Rattle.asm_parse.specs.Seen.{expression_seen};
ghost use Rattle.asm_layout.specs.Value.{defined, value_of};

use crate::names::Names;
use asm_parse::{AsmWhy, Expression, Inner};

/// The value of an expression, where its name has one.
#[tactic(auto, unfolding(crate::specs::Value::value_of))]
fn value(names: &Names, expression: Expression<'_>) -> Option<u32>
    ensures { result ≡ value_of names.now (expression_seen expression.entry) }
{
    let value = match expression.inner {
        Inner::Number(number) => number,
        Inner::Name(name) => names.value(name)?,
        Inner::Sum { name, number } => names.value(name)?.wrapping_add(number),
    };
    Some(expression.openings.of(value))
}

/// The value of an expression. The fault is Undefined.
pub fn defined(names: &Names, expression: Expression<'_>) -> Result<u32, AsmWhy>
    ensures { result ≡ defined names.now (expression_seen expression.entry) }
{
    value(names, expression).ok_or(AsmWhy::Undefined)
}
