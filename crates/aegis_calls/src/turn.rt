//! Turns: what they do to the board's parts.
ghost use Rattle.std.specs.Prelude.{◌≡◌, ◌<◌, ◌≤◌, ◌+◌, IsNone, length};
ghost use Rattle.slot_vector.specs.Laws.{owed_by_all};
ghost use Rattle.slot_vector.specs.Slices.{next_turn};

use crate::board::Board;
use kernel_journal::Row;
use slot_vector::NextTurn;
use world_model::WorldView;

impl Board {
    ghost use Rattle.board_model.specs.Doing.{after_next, start_frames, start_registers, after_turn_phase};

    /// An environment starts: at its handler of starts, or without one where its registers were kept.
    pub(crate) fn start(&mut self, env: u8)
        requires { env < length self.old.roster.list }
        ensures { self.new ≡ record self.old { frames = start_frames self.old env; cpu = start_registers self.old.roster.list env } }
    {
        self.machine.cpu = self.roster.frame(env).start(&mut self.frames);
    }

    /// What comes next in the vector of slots, where nobody runs: a slot is forfeited, or its holder starts.
    #[inline(never)]
    fn next(&mut self) -> NextTurn
        requires nobody { IsNone self.old.slots.runner }
        requires whole { self.old.roster.spare ≡ 0 }
        requires room { 0 < self.old.ledger.spare }
        ensures turn { result ≡ next_turn self.old.slots }
        ensures after { self.new ≡ after_next self.old result }
    {
        let next = self.slots.next_turn();
        match next {
            NextTurn::Pay(turn) => self.journal.push(Row::Pay {
                time: self.time.ticks(),
                slot: turn.slot,
                env: turn.env,
            }),
            NextTurn::Run(turn) => {
                self.journal.push(Row::Run {
                    time: self.time.ticks(),
                    slot: turn.slot,
                    env: turn.env,
                });
                self.start(turn.env);
            }
            NextTurn::Idle => {}
        }
        next
    }

    /// Where nobody runs, the slots of holders that owe are forfeited, and the first holder that owes nothing
    /// starts with a full quantum.
    #[inline(always)]
    pub(crate) fn take_turn(&mut self)
        requires whole { self.old.roster.spare ≡ 0 }
        requires room { owed_by_all self.old.slots < self.old.ledger.spare }
        ensures after { self.new ≡ after_turn_phase self.old }
        ensures time { self.new.time ≡ self.old.time }
        ensures whole { self.new.roster.spare ≡ 0 }
        ensures room { self.old.ledger.spare ≤ self.new.ledger.spare + owed_by_all self.old.slots + 1 }
    {
        if self.runner().is_some() {
            return;
        }
        while let NextTurn::Pay(_) = self.next() {}
    }
}
