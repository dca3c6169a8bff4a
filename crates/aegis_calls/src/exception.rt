//! Exceptions of the runner: what they do to the board's parts.
ghost use Rattle.std.specs.Prelude.{◌≡◌, ◌<◌, Some};
ghost use Rattle.world_model.specs.Book.{running};

use crate::board::Board;
use mips_exec::Exc;
use world_model::Cause;

impl Board {
    ghost use Rattle.board_model.specs.Doing.{after_trap};

    /// The runner goes on at its handler of exceptions, and where it has none it dies.
    #[inline(never)]
    pub(crate) fn trap(&mut self, env: u8, exc: &Exc)
        requires runs { running self.old.slots.runner ≡ Some env }
        requires room { 64 < self.old.ledger.spare }
        ensures { self.new ≡ after_trap self.old env exc.now }
    {
        // Of a copy the host's compiler knows that no store to the guest's memory changes it.
        let exc = *exc;
        let frame = self.roster.frame(env);
        if !frame.raise(&mut self.frames, &mut self.machine.cpu, &exc) {
            self.die(env, Cause::Trapped(exc.code));
        }
    }
}
