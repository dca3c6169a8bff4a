//! The timer, and the stop of a runner: what they do to the board's parts.
ghost use Rattle.std.specs.Prelude.{◌≡◌, ◌<◌, length, true, Some};
ghost use Rattle.aegis_limits.specs.Limits.{most_ticks};
ghost use Rattle.slot_vector.specs.Slices.{timer_answer};
ghost use Rattle.world_model.specs.Book.{running};

use crate::board::Board;
use board_acts::settle;
use env_frames::Context;
use kernel_journal::Row;
use slot_vector::Timer;
use world_model::{Cause, WorldView};

impl Board {
    ghost use Rattle.board_model.specs.Doing.{after_timer_by, after_timer_phase, after_end, has_end, with_stop_kept, after_stop, after_use};

    /// The registers of an environment that is stopped are kept, and the ledger says so.
    #[inline(never)]
    fn keep_stopped(&mut self, env: u8)
        requires there { env < length self.old.roster.list }
        requires room { 0 < self.old.ledger.spare }
        ensures { self.new ≡ with_stop_kept self.old env }
    {
        self.roster.keep(env, &self.machine.cpu);
        self.journal.push(Row::Stop {
            time: self.time.ticks(),
            slot: self.slots.slot(),
            env,
        });
    }

    /// The runner is stopped, and the rest of its slice is dropped.
    pub(crate) fn stop(&mut self, env: u8)
        requires runs { running self.old.slots.runner ≡ Some env }
        requires room { 0 < self.old.ledger.spare }
        ensures { self.new ≡ after_stop self.old env }
    {
        self.slots.give_up();
        self.keep_stopped(env);
    }

    /// The end of a slice is told to its environment, which handles it: all but what the slots are after it.
    #[inline(never)]
    fn tell_end(&mut self, env: u8)
        requires there { env < length self.old.roster.list }
        requires handled { has_end self.old env ≡ true }
        requires room { 0 < self.old.ledger.spare }
        ensures { self.new ≡ record (after_end self.old env) { slots = self.old.slots } }
    {
        let frame = self.roster.frame(env);
        frame.end(&mut self.frames, &mut self.machine.cpu);
        self.journal.push(Row::End {
            time: self.time.ticks(),
            slot: self.slots.slot(),
            env,
        });
    }

    /// The ticks left of the runner's quantum fall by one; the result is what that brings, which is settled.
    #[inline(always)]
    fn use_tick(&mut self, env: u8) -> Timer
        requires runs { running self.old.slots.runner ≡ Some env }
        requires room { 65 < self.old.ledger.spare }
        ensures answer { result ≡ timer_answer self.old.slots (has_end self.old env) }
        ensures after { self.new ≡ after_use self.old env result }
    {
        let end = self.roster.frame(env).handler(Context::End);
        let timer = self.slots.timer(end != 0);
        settle(
            &mut self.slots,
            &mut self.journal,
            self.time.ticks(),
            env,
            timer,
        );
        timer
    }

    /// A tick of the runner's quantum is over: after the last one it is told, or it is stopped, and in time of
    /// grace its excess rises, and above the limit it dies.
    #[inline(always)]
    fn count_down(&mut self, env: u8)
        requires runs { running self.old.slots.runner ≡ Some env }
        requires room { 65 < self.old.ledger.spare }
        ensures { self.new ≡ after_timer_by self.old env (timer_answer self.old.slots (has_end self.old env)) }
    {
        // Reads a part, and with it that the board is sound.
        let _ = &self.time;
        match self.use_tick(env) {
            Timer::Nothing | Timer::Over(_) => {}
            Timer::End => self.tell_end(env),
            Timer::Stop => self.keep_stopped(env),
            Timer::Kill => self.bury(env, Cause::Excess),
        }
    }

    /// The timer counts for a runner, and time rises by one.
    #[inline(always)]
    pub(crate) fn count(&mut self)
        requires room { 65 < self.old.ledger.spare }
        requires time { self.old.time < most_ticks }
        ensures { self.new ≡ after_timer_phase self.old }
    {
        if let Some(env) = self.runner() {
            self.count_down(env);
        }
        self.time.pass(1);
    }
}
