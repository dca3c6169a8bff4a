//! The ticks of a run that is told.
ghost use Rattle.std.specs.Prelude.{◌≡◌, ◌<◌, ◌||◌, ◌&&◌, not, if◌then◌else◌, IfOk, OnOk, false};
ghost use Rattle.aegis_limits.specs.Limits.{most_run_ticks};
ghost use Rattle.world_model.specs.Book.{is_idle_book, is_runner};
ghost use Rattle.board_model.specs.Showing.{world_of};

use crate::phases::tell_tick;
use crate::reach::is_out_of_reach;
use crate::run::BoardRun;
use aegis_limits::{MOST_RUN_TICKS, OutOfMemory};
use page_laws::law_through;
use run_model::law_time;
use tlb_course::law_further;
use world_model::WorldView;

/// Whether a slice ended in a tick, by whether its environment ran before it, began one in it, and runs behind it.
fn slice_ended(ran: bool, begins: bool, runs: bool) -> bool
    ensures { result ≡ (ran || begins) && not runs }
{
    (ran || begins) && !runs
}

/// 1 where it holds.
fn one_if(holds: bool) -> u32
    ensures { result ≡ (if holds then 1 else 0) }
{
    u32::from(holds)
}

impl BoardRun<'_, '_, '_> {
    ghost use Rattle.feed_run.specs.Whole.{IsWholeRun, WentATick, WentPlain, progress_of};

    /// Whether the environment runs.
    fn is_running(&self) -> bool
        ensures { result ≡ is_runner self.now.watched (world_of self.now.course.board).book.runner }
    {
        self.course.board.runner() == Some(self.watched)
    }

    /// Makes the next tick, told phase by phase. The result is whether a slice of the environment ended in it.
    pub(crate) fn make_tick(&mut self) -> Result<bool, OutOfMemory>
        requires whole { IsWholeRun self.old }
        requires busy { is_idle_book (world_of self.old.course.board).book ≡ false }
        requires time { self.old.course.board.time < most_run_ticks }
        ensures went { IfOk result (WentATick (progress_of self.old) (progress_of self.new)) }
        ensures whole { OnOk result (IsWholeRun self.new) }
    {
        let ran = self.is_running();
        let now = self.course.due();
        tell_tick(&mut self.course.board, &mut self.tick, self.watched, now)?;
        let begins = self.log.receive(&mut self.tick)?;
        self.tick.clear();
        let has_ended = slice_ended(ran, begins, self.is_running());
        self.ended += one_if(has_ended);
        Ok(has_ended)
    }

    /// Makes plain ticks, in which nothing happens but the runner's steps: the environment's own, which are told as steps,
    /// or those of another that may store to no page that it sees, of which nothing is told.
    pub(crate) fn make_plain_ticks(&mut self) -> Result<(), OutOfMemory>
        requires { IsWholeRun self.old }
        ensures went { OnOk result (WentPlain (progress_of self.old) (progress_of self.new)) }
        ensures whole { OnOk result (IsWholeRun self.new) }
    {
        law_time();
        law_further();
        law_through();
        let board = &self.course.board;
        let Some(runner) = board.runner() else {
            return Ok(());
        };
        let is_own = runner == self.watched;
        if !is_own && !is_out_of_reach(board, runner, self.watched) {
            return Ok(());
        }
        let most = MOST_RUN_TICKS - board.time();
        let steps = self.course.glide(most);
        if is_own {
            self.log.push_steps(steps)?;
        }
        Ok(())
    }
}
