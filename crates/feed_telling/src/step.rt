//! What the runner's step gives, with its call, its store or its death.
ghost use Rattle.std.specs.Prelude.{◌≡◌, ◌<◌, ◌≤◌, ◌^◌, [], ◌∷◌, OnOk, Some};
ghost use Rattle.aegis_limits.specs.Limits.{most_ticks};
ghost use Rattle.world_model.specs.Book.{running};
ghost use Rattle.world_model.specs.Item.{Step};
ghost use Rattle.world_model.specs.World.{only};
ghost use Rattle.world_model.specs.Tick.{act_now, act_reply, step as step_phase};
ghost use Rattle.feed_telling.specs.Tell.{AreTold};

use crate::act::NextAct;
use crate::deeds::tell_call;
use crate::items::tell_stepped;
use crate::losses::{tell_losses, tell_store};
use crate::view::FeedView;
use aegis_limits::OutOfMemory;
use feed_log::FeedLog;

/// Tells what the act of the runner's next step gives.
fn tell_act<V: FeedView>(
    view: &V,
    log: &mut FeedLog,
    watched: u8,
    runner: u8,
) -> Result<(), OutOfMemory>
    requires runs { running (V.world view.now).book.runner ≡ Some runner }
    requires numbers { (V.world view.now).book.next_claim < 2 ^ 32 }
    requires time { (V.world view.now).book.time ≤ most_ticks }
    ensures { OnOk result (AreTold log.old log.new ((act_reply runner (act_now (V.world view.now) runner) (V.world view.now)).items watched)) }
{
    match view.next_act(runner) {
        NextAct::Aside => Ok(()),
        NextAct::Stores {
            page,
            offset,
            bytes,
        } => tell_store(view, log, watched, runner, page, offset, bytes.bytes()),
        NextAct::Calls => tell_call(view, log, watched, runner),
        NextAct::Dies => tell_losses(view, log, watched, runner),
    }
}

/// Tells the runner that it steps.
fn tell_own_step(log: &mut FeedLog, watched: u8, runner: u8) -> Result<(), OutOfMemory>
    ensures { OnOk result (AreTold log.old log.new (only runner (Step ∷ []) watched)) }
{
    if watched == runner {
        return tell_stepped(log);
    }
    Ok(())
}

/// Tells what the step of the runner gives to an environment, before it is made: to the runner itself that it steps, and
/// to each what its store, its call or its death gives.
pub fn tell_step<V: FeedView>(
    view: &V,
    log: &mut FeedLog,
    watched: u8,
    runner: u8,
) -> Result<(), OutOfMemory>
    requires runs { running (V.world view.now).book.runner ≡ Some runner }
    requires numbers { (V.world view.now).book.next_claim < 2 ^ 32 }
    requires time { (V.world view.now).book.time ≤ most_ticks }
    ensures { OnOk result (AreTold log.old log.new ((step_phase (V.world view.now)).items watched)) }
{
    tell_own_step(log, watched, runner)?;
    tell_act(view, log, watched, runner)
}
