//! The first pass over a source.
ghost use Rattle.std.specs.Prelude.{◌<◌, ◌^◌, length, IfOk};
ghost use Rattle.line_text.specs.Failing.{Gives};
ghost use Rattle.asm_layout.specs.Laid.{IsLaid};
ghost use Rattle.asm_layout.specs.Layout.{laid};
ghost use Rattle.asm_layout.specs.Seen.{layout_seen};

use crate::layout::Layout;
use asm_parse::AsmWhy;
use line_text::{TextFailure, cut};
use std::alloc::Global;

/// What the lines of a source place, or the first fault of the first pass (`docs/ASSEMBLER.md`).
#[tactic(auto, unfolding(crate::specs::Layout::laid))]
pub fn lay_out<'a>(alloc: Global, source: &'a [u8]) -> Result<Layout<'a>, TextFailure<AsmWhy>>
    requires { length source.now < 2 ^ 27 }
    // It is what the source's lines place; a fault is the one that the source has.
    ensures value { Gives layout_seen result (laid source.now) }
    // The sections are within their limit, and as long as what stands in them; `start` is one of the labels.
    ensures sound { IfOk result (λ layout. IsLaid (layout_seen layout)) }
{
    let mut layout = Layout::new(alloc);
    for line in cut(source) {
        layout.add(alloc, &line)?;
    }
    Ok(layout)
}
