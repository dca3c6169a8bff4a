//! The first difference of what two runs give.
ghost use Rattle.std.specs.Prelude.{◌≡◌, IfOk, Option, option_map};
ghost use Rattle.twin_run.specs.Answer.{text_or_none};
ghost use Rattle.twin_run.specs.Course.{difference_at, front};

use crate::item_text::ItemText;
use aegis_limits::OutOfMemory;
use feed_log::{ItemView, ToldRun};
use std::alloc::Global;

/// Where two feeds differ, with the texts of the items there.
#[derive(Drop)]
pub(crate) struct Difference {
    /// The place of the items.
    pub(crate) index: u64,
    /// The text of the left one.
    pub(crate) left: ItemText,
    /// The text of the right one.
    pub(crate) right: ItemText,
}

/// The text of the item that comes next in a run.
fn next_text<R: ToldRun>(alloc: Global, run: &R) -> Result<ItemText, OutOfMemory>
    requires { R.IsWhole run.now }
    ensures { IfOk result (λ text. text ≡ text_or_none (front (R.progress run.now))) }
{
    match run.first() {
        Some((item, _)) => ItemText::of(alloc, item),
        None => ItemText::none(alloc),
    }
}

/// The items that come next in two runs, of which so many were read, where these aren't the same; none where neither has
/// one.
pub(crate) fn next_difference<R: ToldRun>(
    alloc: Global,
    left: &R,
    right: &R,
    index: u64,
) -> Result<Option<Difference>, OutOfMemory>
    requires left { R.IsWhole left.now }
    requires right { R.IsWhole right.now }
    ensures { IfOk result (λ d. d ≡ difference_at index (front (R.progress left.now)) (front (R.progress right.now))) }
{
    if left.first().is_none() && right.first().is_none() {
        return Ok(None);
    }
    Ok(Some(Difference {
        index,
        left: next_text(alloc, left)?,
        right: next_text(alloc, right)?,
    }))
}
