//! What the timer gives, and the turn.
ghost use Rattle.std.specs.Prelude.{◌≡◌, [], ◌∷◌, OnOk};
ghost use Rattle.world_model.specs.Book.{running};
ghost use Rattle.world_model.specs.Item.{Killed};
ghost use Rattle.world_model.specs.Tick.{timer as timer_phase};
ghost use Rattle.world_model.specs.World.{only};
ghost use Rattle.feed_telling.specs.Tell.{AreTold};
ghost use Rattle.feed_telling.specs.Turning.{TurnGives, given_by_timer, given_by_turn};

use crate::items::{tell_end, tell_killed, tell_start};
use crate::losses::tell_losses;
use crate::view::FeedView;
use aegis_limits::OutOfMemory;
use feed_log::FeedLog;
use world_model::Timer;

/// Tells the runner that it dies of its excess.
fn tell_own_death(log: &mut FeedLog, watched: u8, runner: u8) -> Result<(), OutOfMemory>
    ensures { OnOk result (AreTold log.old log.new (only runner (Killed ∷ []) watched)) }
{
    if watched == runner {
        return tell_killed(log);
    }
    Ok(())
}

/// Tells what an answer of the timer's for the runner gives.
fn tell_answer_of_timer<V: FeedView>(
    view: &V,
    log: &mut FeedLog,
    watched: u8,
    runner: u8,
    answer: Timer,
) -> Result<(), OutOfMemory>
    ensures { OnOk result (AreTold log.old log.new (given_by_timer (V.world view.now).book runner answer watched)) }
{
    match answer {
        Timer::End if watched == runner => tell_end(log),
        Timer::Kill => {
            tell_own_death(log, watched, runner)?;
            tell_losses(view, log, watched, runner)
        }
        Timer::Nothing | Timer::End | Timer::Stop | Timer::Over(_) => Ok(()),
    }
}

/// Tells what the timer gives to an environment, before it counts, where this environment runs, if any does.
pub fn tell_timer<V: FeedView>(
    view: &V,
    log: &mut FeedLog,
    watched: u8,
    runner: Option<u8>,
) -> Result<(), OutOfMemory>
    requires { running (V.world view.now).book.runner ≡ runner }
    ensures { OnOk result (AreTold log.old log.new ((timer_phase (V.world view.now)).items watched)) }
{
    match runner {
        Some(runner) => tell_answer_of_timer(view, log, watched, runner, view.timer()),
        None => Ok(()),
    }
}

/// Tells what a turn gave to an environment, by who ran before it and who runs behind it.
pub fn tell_turn(
    log: &mut FeedLog,
    watched: u8,
    before: Option<u8>,
    behind: Option<u8>,
) -> Result<(), OutOfMemory>
    ensures { OnOk result (AreTold log.old log.new (given_by_turn before behind watched)) }
{
    if before.is_none() && behind == Some(watched) {
        return tell_start(log);
    }
    Ok(())
}

/// Law: a turn gives what who ran before it and who runs behind it tell.
pub fn law_turn()
    ensures { TurnGives }
{}
