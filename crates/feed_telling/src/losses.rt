//! What others lose and what is stored into their pages.
ghost use Rattle.std.specs.Prelude.{◌≡◌, OnOk};
ghost use Rattle.world_model.specs.Death.{death_items};
ghost use Rattle.world_model.specs.PageCalls.{left_at, lost_bindings};
ghost use Rattle.world_model.specs.Rings.{page_store};
ghost use Rattle.world_model.specs.Solo.{Physical};
ghost use Rattle.feed_telling.specs.Tell.{AreTold, lost_by_death, store_at};

use crate::items::{tell_left, tell_lost};
use crate::view::FeedView;
use aegis_limits::OutOfMemory;
use feed_log::FeedLog;

/// Tells that all bindings of a page are broken, to whoever has bound it.
pub(crate) fn tell_break<V: FeedView>(
    view: &V,
    log: &mut FeedLog,
    watched: u8,
    page: u32,
) -> Result<(), OutOfMemory>
    ensures { OnOk result (AreTold log.old log.new (lost_bindings (V.world view.now).book page watched)) }
{
    if view.has_bound(watched, page) {
        return tell_lost(log, page);
    }
    Ok(())
}

/// Tells that a page is free, if it was of one that is gone, to whoever has bound it.
fn tell_page_of_dead<V: FeedView>(
    view: &V,
    log: &mut FeedLog,
    watched: u8,
    gone: u8,
    page: u32,
) -> Result<(), OutOfMemory>
    ensures { OnOk result (AreTold log.old log.new (lost_by_death (V.world view.now).book gone page watched)) }
{
    if view.belongs_to(gone, page) {
        return tell_break(view, log, watched, page);
    }
    Ok(())
}

/// Tells what the others lose by a death.
pub(crate) fn tell_losses<V: FeedView>(
    view: &V,
    log: &mut FeedLog,
    watched: u8,
    gone: u8,
) -> Result<(), OutOfMemory>
    ensures { OnOk result (AreTold log.old log.new (death_items (V.world view.now).book gone watched)) }
{
    if watched == gone {
        return Ok(());
    }
    for page in 0..view.page_count() {
        tell_page_of_dead(view, log, watched, gone, page)?;
    }
    Ok(())
}

/// Tells a store into a page that isn't guaranteed, to whoever else owns the page or has bound it.
pub(crate) fn tell_store<V: FeedView>(
    view: &V,
    log: &mut FeedLog,
    watched: u8,
    writer: u8,
    page: u32,
    offset: u32,
    bytes: &[u8],
) -> Result<(), OutOfMemory>
    ensures { OnOk result (AreTold log.old log.new (left_at (V.world view.now).book writer (store_at page offset bytes.now) (Physical page) watched)) }
{
    if watched != writer && view.sees(watched, page) {
        return tell_left(log, page, offset, bytes);
    }
    Ok(())
}
