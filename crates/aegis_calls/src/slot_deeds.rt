//! What granted calls do to slices and slots: gifts, transfers, and slots that are taken and dropped.
ghost use Rattle.std.specs.Prelude.{◌≡◌, ◌≢◌, ◌<◌, Some, length};
ghost use Rattle.world_model.specs.Book.{own_hold, running};
ghost use Rattle.world_model.specs.May.{MayDrop, MayTake};
ghost use Rattle.world_model.specs.SlotCalls.{dropped};
ghost use Rattle.slot_vector.specs.Slices.{hold_at};
ghost use Rattle.env_frames.specs.Context.{handler_of};
ghost use Rattle.env_frames.specs.Transfer.{entry_context};
ghost use Rattle.board_model.specs.Shown.{handlers_of};
ghost use Rattle.board_model.specs.Showing.{book_of};
ghost use Rattle.board_model.specs.Sound.{IsLiving};

use crate::board::Board;
use board_acts::{GrantedTransfer, enter, hand_on, push_slot};
use env_frames::TransferKind;
use kernel_journal::Row;

impl Board {
    ghost use Rattle.board_model.specs.Doing.{after_gift, after_transfer, board_with_slot};

    /// The rest of the runner's slice goes to another environment, which starts.
    pub(crate) fn give(&mut self, env: u8, target: u8)
        requires runs { running self.old.slots.runner ≡ Some env }
        requires lives { IsLiving self.old.roster.list target }
        requires room { 0 < self.old.ledger.spare }
        ensures { self.new ≡ after_gift self.old env target }
    {
        let kept = self.machine.cpu;
        self.slots.donate(target, false);
        self.machine.cpu = self.roster.frame(target).start(&mut self.frames);
        self.roster.keep(env, &kept);
        self.journal.push(Row::Give {
            time: self.time.ticks(),
            slot: self.slots.slot(),
            from: env,
            to: target,
        });
    }

    /// The runner, whose call is granted with a value, transfers control to another, with the rest of the slice, or
    /// the slot too.
    pub(crate) fn transfer(&mut self, env: u8, value: u32, target: u8, kind: TransferKind)
        requires runs { running self.old.slots.runner ≡ Some env }
        requires lives { IsLiving self.old.roster.list target }
        requires open { handler_of (handlers_of self.old.roster.list target) (entry_context kind) ≢ 0 }
        requires room { 1 < self.old.ledger.spare }
        ensures { self.new ≡ after_transfer self.old env value target kind }
    {
        hand_on(
            &mut self.slots,
            &mut self.journal,
            self.time.ticks(),
            env,
            target,
            kind,
        );
        enter(
            &mut self.roster,
            &mut self.frames,
            &mut self.machine.cpu,
            GrantedTransfer {
                env,
                value,
                target,
                kind,
            },
        );
    }

    /// An empty slot is the runner's own from now on, and the ledger says so.
    pub(crate) fn take_slot(&mut self, env: u8, slot: u32)
        requires runs { running self.old.slots.runner ≡ Some env }
        requires may { MayTake (book_of self.old) slot }
        requires room { 0 < self.old.ledger.spare }
        ensures { self.new ≡ board_with_slot self.old slot (Some (own_hold env)) }
    {
        self.slots.take(env, slot).unwrap();
        push_slot(&mut self.journal, &self.slots, self.time.ticks(), slot);
    }

    /// A slot that the runner holds is empty, or its owner's again, and the ledger says so.
    pub(crate) fn drop_slot(&mut self, env: u8, slot: u32)
        requires may { MayDrop (book_of self.old) env slot }
        requires room { 0 < self.old.ledger.spare }
        ensures { self.new ≡ board_with_slot self.old slot (dropped env (hold_at self.old.slots.slots slot)) }
    {
        self.slots.drop_slot(env, slot).unwrap();
        push_slot(&mut self.journal, &self.slots, self.time.ticks(), slot);
    }
}
