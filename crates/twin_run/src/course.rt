//! How the two runs go on while they are compared.
ghost use Rattle.std.specs.Prelude.{◌≡◌, ◌+◌, IfOk, OnOk};
ghost use Rattle.twin_run.specs.Course.{AreNextSame, Begins, CameApart, CameToItem, EndedSo, IsUnderWay};

use crate::item_text::is_alike;
use aegis_limits::OutOfMemory;
use feed_log::{ToldRun, law_views};
use world_model::WorldView;

/// Lets a run go on to an item that wasn't read, if it comes to one before so many slices have ended.
fn come_to_item<R: ToldRun>(run: &mut R, slices: u32) -> Result<(), OutOfMemory>
    requires whole { R.IsWhole run.old }
    requires under_way { IsUnderWay slices (R.progress run.old) }
    ensures came { OnOk result (CameToItem slices (R.progress run.old) (R.progress run.new)) }
    ensures whole { OnOk result (R.IsWhole run.new) }
{
    while run.first().is_none() && run.slices() < slices {
        if !run.pass()? {
            return Ok(());
        }
    }
    Ok(())
}

/// How many of the items that come next in two runs are the same, without a gap; none where the next ones aren't alike,
/// or a run has none.
fn same_next<R: ToldRun>(left: &R, right: &R) -> u32
    requires left { R.IsWhole left.now }
    requires right { R.IsWhole right.now }
    ensures { AreNextSame (R.progress left.now) (R.progress right.now) result }
{
    law_views();
    match (left.first(), right.first()) {
        (Some((item, count)), Some((other, other_count))) if is_alike(item, other) => {
            count.min(other_count)
        }
        _ => 0,
    }
}

/// The place behind so many more items. A place that isn't below 2^64 has no number: for as many items no memory is found.
fn place_behind(index: u64, count: u32) -> Result<u64, OutOfMemory>
    ensures { IfOk result (λ place. place ≡ index + count) }
{
    index.checked_add(u64::from(count)).ok_or(OutOfMemory)
}

/// Reads items of both runs as long as they are the same, up to the end of so many slices. The result is how many.
pub(crate) fn read_same<R: ToldRun>(
    left: &mut R,
    right: &mut R,
    slices: u32,
) -> Result<u64, OutOfMemory>
    requires left { Begins (R.progress left.old).env (R.progress left.old) }
    requires right { Begins (R.progress left.old).env (R.progress right.old) }
    requires left_whole { R.IsWhole left.old }
    requires right_whole { R.IsWhole right.old }
    ensures apart { IfOk result (λ index. CameApart slices (R.progress left.old) (R.progress right.old) (R.progress left.new) (R.progress right.new) index) }
    ensures left_whole { OnOk result (R.IsWhole left.new) }
    ensures right_whole { OnOk result (R.IsWhole right.new) }
{
    let mut index: u64 = 0;
    loop {
        come_to_item(left, slices)?;
        come_to_item(right, slices)?;
        let count = same_next(left, right);
        if count == 0 {
            return Ok(index);
        }
        left.skip(count);
        right.skip(count);
        index = place_behind(index, count)?;
    }
}

/// Lets a run go on to the end of so many slices of an environment, its items unread. None where it comes there, and
/// else how many slices it comes to.
pub(crate) fn slices_short<R: ToldRun>(
    run: &mut R,
    env: u8,
    slices: u32,
) -> Result<Option<u32>, OutOfMemory>
    requires whole { R.IsWhole run.old }
    requires under_way { IsUnderWay slices (R.progress run.old) }
    requires env { (R.progress run.old).env ≡ env }
    ensures ended { IfOk result (λ short. EndedSo slices (R.progress run.old) (R.progress run.new) short) }
    ensures whole { OnOk result (R.IsWhole run.new) }
{
    if env >= run.view().envs() {
        return Ok(Some(0));
    }
    while run.slices() < slices {
        run.clear();
        if !run.pass()? {
            return Ok(Some(run.slices()));
        }
    }
    Ok(None)
}
