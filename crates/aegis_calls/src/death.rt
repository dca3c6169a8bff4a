//! Deaths: what they do to the board's parts.
ghost use Rattle.std.specs.Prelude.{◌≡◌, ◌<◌, length, Some};
ghost use Rattle.world_model.specs.Book.{running};
ghost use Rattle.board_model.specs.Sound.{HasNoPart};

use crate::board::Board;
use board_acts::{drop_dead, release_slots};
use world_model::Cause;

impl Board {
    ghost use Rattle.board_model.specs.Doing.{after_burial, after_death};

    /// What an environment has whose slots are released goes: its pages are free, neither its bindings nor those of
    /// its pages are left, its interrupt lines are nobody's, its claims are withdrawn, nothing is asked of it, and it is
    /// dead.
    #[inline(never)]
    pub(crate) fn bury(&mut self, env: u8, cause: Cause)
        requires there { env < length self.old.roster.list }
        requires released { HasNoPart env self.old.slots }
        ensures { self.new ≡ after_burial self.old env cause }
    {
        self.bindings.clear_env(env, &self.pages);
        drop_dead(&mut self.machine.tlb, &self.pages, env);
        self.pages.release_env(env);
        self.lines.clear(env);
        self.claims.clear_env(env);
        self.revocations.forget(env);
        self.roster.die(env, cause);
    }

    /// The runner dies: its slots are released, and then all else that it has.
    pub(crate) fn die(&mut self, env: u8, cause: Cause)
        requires runs { running self.old.slots.runner ≡ Some env }
        requires room { 64 < self.old.ledger.spare }
        ensures { self.new ≡ after_death self.old env cause }
    {
        release_slots(&mut self.slots, &mut self.journal, self.time.ticks(), env);
        self.bury(env, cause);
    }
}
