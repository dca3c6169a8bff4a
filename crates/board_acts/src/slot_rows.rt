//! Slots and the rows of the ledger that tell what becomes of them.
ghost use Rattle.std.specs.Prelude.{◌≡◌, ◌≤◌, ◌<◌, ◌+◌, length};
ghost use Rattle.kernel_journal.specs.Ledger.{with_row};
ghost use Rattle.kernel_journal.specs.declared.row.Row.TheVariants as row;
ghost use Rattle.slot_vector.specs.Slices.{hold_at, without_env};
ghost use Rattle.aegis_limits.specs.Limits.{environment_numbers};
ghost use Rattle.world_model.specs.SlotCalls.{slot_row};
ghost use Rattle.board_model.specs.Doing.{ledger_after_release, ledger_after_timer, mask_rows, slots_settled, with_rows};

use kernel_journal::{Journal, Row};
use slot_vector::{Slots, Timer};

/// Writes the row of a slot as it stands.
pub fn push_slot(journal: &mut Journal, slots: &Slots, time: u32, slot: u32)
    requires { 0 < journal.old.spare }
    ensures { journal.new ≡ with_row journal.old (slot_row time slot (hold_at slots.now.slots slot)) }
{
    journal.push(Row::Own {
        time,
        slot,
        owner: slots.owner(slot),
        holder: slots.holder(slot),
    });
}

/// Writes the row of each slot that a mask names, by rising slot; the lowest bit is that of slot 0.
fn push_slots(journal: &mut Journal, slots: &Slots, time: u32, mask: u64)
    requires { length slots.now.slots ≤ journal.old.spare }
    ensures { journal.new ≡ with_rows journal.old (mask_rows time mask (hold_at slots.now.slots) (length slots.now.slots)) }
{
    let mut rest = mask;
    for slot in 0..slots.slots() {
        if rest % 2 == 1 {
            push_slot(journal, slots, time, slot);
        }
        rest /= 2;
    }
}

/// Releases the slots of an environment that dies: its own are empty, and those that it held for others are theirs
/// again. The ledger tells its death, and what becomes of each slot.
#[inline(never)]
pub fn release_slots(slots: &mut Slots, journal: &mut Journal, time: u32, env: u8)
    requires number { env < environment_numbers }
    requires room { length slots.old.slots < journal.old.spare }
    ensures slots { slots.new ≡ without_env env slots.old }
    ensures journal { journal.new ≡ ledger_after_release time env slots.old journal.old }
{
    journal.push(Row::Dead {
        time,
        slot: slots.slot(),
        env,
    });
    let mask = slots.release_env(env);
    push_slots(journal, slots, time, mask);
}

/// The ledger says that a quantum of grace is over, and what the environment's excess is now.
fn push_over(journal: &mut Journal, slots: &Slots, time: u32, env: u8, excess: u32)
    requires { 0 < journal.old.spare }
    ensures { journal.new ≡ with_row journal.old (row.Over time slots.now.cursor env excess) }
{
    journal.push(Row::Over {
        time,
        slot: slots.slot(),
        env,
        excess,
    });
}

/// Settles what the timer brought to a runner, before anything else happens: the ledger tells of a quantum of grace
/// that is over, and the slots of a runner that is to die are released.
#[inline(always)]
pub fn settle(slots: &mut Slots, journal: &mut Journal, time: u32, env: u8, timer: Timer)
    requires number { env < environment_numbers }
    requires room { length slots.old.slots + 1 < journal.old.spare }
    ensures slots { slots.new ≡ slots_settled env slots.old timer }
    ensures journal { journal.new ≡ ledger_after_timer time env slots.old journal.old timer }
{
    match timer {
        Timer::Nothing | Timer::End | Timer::Stop => {}
        Timer::Over(excess) => push_over(journal, slots, time, env, excess),
        Timer::Kill => {
            let excess = slots.excess(env);
            push_over(journal, slots, time, env, excess);
            release_slots(slots, journal, time, env);
        }
    }
}
