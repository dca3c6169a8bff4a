//! What is given where a page is taken, and by what happens from outside.
ghost use Rattle.std.specs.Prelude.{◌≡◌, ◌≢◌, ◌<◌, ◌≤◌, ◌+◌, OnOk, IfSome};
ghost use Rattle.aegis_limits.specs.Limits.{most_ticks};
ghost use Rattle.world_model.specs.Call.{any};
ghost use Rattle.world_model.specs.Deadlines.{copy_left, takes};
ghost use Rattle.world_model.specs.Event.{revokes, signals};
ghost use Rattle.feed_telling.specs.Tell.{AreTold};

use crate::deeds::tell_revocation;
use crate::items::{tell_line, tell_taken};
use crate::losses::{tell_break, tell_store};
use crate::view::FeedView;
use aegis_limits::OutOfMemory;
use feed_log::FeedLog;
use revocation_book::Taking;

/// Tells the copy of a page that is taken, to whoever else has bound the backup.
fn tell_copy<V: FeedView>(
    view: &V,
    log: &mut FeedLog,
    watched: u8,
    taking: Taking,
) -> Result<(), OutOfMemory>
    ensures { OnOk result (AreTold log.old log.new (copy_left (V.world view.now) taking taking.backup watched)) }
{
    match taking.backup {
        Some(backup) => {
            let bytes = view.page_bytes(taking.page);
            tell_store(view, log, watched, taking.env, backup, 0, bytes)
        }
        None => Ok(()),
    }
}

/// Tells what the taking of a page gives to an environment, before it is taken.
pub fn tell_taking<V: FeedView>(
    view: &V,
    log: &mut FeedLog,
    watched: u8,
    taking: Taking,
) -> Result<(), OutOfMemory>
    requires { IfSome taking.backup (λ backup. backup ≢ any) }
    ensures { OnOk result (AreTold log.old log.new ((takes taking (V.world view.now)).items watched)) }
{
    if watched == taking.env {
        return tell_taken(log, taking.page, taking.backup);
    }
    tell_copy(view, log, watched, taking)?;
    tell_break(view, log, watched, taking.page)
}
