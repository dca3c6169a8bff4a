//! Transfers of control: the slice is handed on, and the target entered.
ghost use Rattle.std.specs.Prelude.{◌≡◌, ◌≢◌, ◌<◌, IfSome, IsSome, length};
ghost use Rattle.env_frames.specs.Context.{context_number, handler_of};
ghost use Rattle.env_frames.specs.Frame.{page_of};
ghost use Rattle.env_frames.specs.Transfer.{entry_context};
ghost use Rattle.aegis_limits.specs.Limits.{environment_numbers};
ghost use Rattle.board_model.specs.Shown.{Shown, handlers_of, mappings_of};
ghost use Rattle.board_model.specs.Doing.{after_entry, after_hand_on};
ghost use Rattle.board_acts.specs.Parts.{with_entry, with_turns};

use crate::answers::answer;
use crate::slot_rows::push_slot;
use board_model::Roster;
use env_frames::TransferKind;
use frame_store::Frames;
use kernel_journal::{Journal, Row};
use mips_exec::Cpu;
use slot_vector::Slots;
use world_model::Verdict;

/// The target runs for the rest of the slice, and holds the slot, if that is handed on; the ledger says so.
pub fn hand_on(
    slots: &mut Slots,
    journal: &mut Journal,
    time: u32,
    env: u8,
    target: u8,
    kind: TransferKind,
)
    requires runs { IsSome slots.old.runner }
    requires number { target < environment_numbers }
    requires room { 1 < journal.old.spare }
    ensures { (b : Shown) → with_turns b slots.new time journal.new ≡ after_hand_on (with_turns b slots.old time journal.old) env target kind }
{
    slots.donate(target, kind.hands_slot());
    let slot = slots.slot();
    match kind {
        TransferKind::Asynchronous => journal.push(Row::Async {
            time,
            slot,
            from: env,
            to: target,
        }),
        TransferKind::Synchronous => {
            journal.push(Row::Sync {
                time,
                slot,
                from: env,
                to: target,
            });
            push_slot(journal, slots, time, slot);
        }
    }
}

/// A transfer that is granted.
#[derive(Clone, Copy)]
pub struct GrantedTransfer {
    /// The environment that calls.
    pub env: u8,
    /// The value with which its call is granted.
    pub value: u32,
    /// The environment that is entered.
    pub target: u8,
    pub kind: TransferKind,
}

/// The target goes on at its entry with the caller's registers as they stand at its call; the call is granted
/// with a value then, and what the caller goes on with later is kept.
pub fn enter(roster: &mut Roster, frames: &mut Frames, cpu: &mut Cpu, entry: GrantedTransfer)
    requires caller { entry.env < length roster.old.list }
    requires there { entry.target < length roster.old.list }
    requires open { handler_of (handlers_of roster.old.list entry.target) (entry_context entry.kind) ≢ 0 }
    requires page { IfSome (page_of (mappings_of roster.old.list entry.target) context_number) (λ page. page < length frames.old) }
    ensures after { (b : Shown) → with_entry b frames.new cpu.new roster.new ≡ after_entry (with_entry b frames.old cpu.old roster.old) entry.env entry.value entry.target entry.kind }
    ensures size { length frames.new ≡ length frames.old }
{
    let GrantedTransfer {
        env,
        value,
        target,
        kind,
    } = entry;
    let entered = roster.enter(target, frames, env, kind, cpu);
    answer(cpu, Verdict::Grant(value));
    roster.keep(env, cpu);
    *cpu = entered;
}
