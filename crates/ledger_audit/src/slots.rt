//! Slots as the rows of a ledger tell of them.
ghost use Rattle.std.specs.Prelude.{◌≡◌, false, length, IfNone, IfSome, slice_index_or};
ghost use Rattle.ledger_audit.specs.LedgerState.{released_by};
ghost use Rattle.ledger_audit.specs.RowRules.{are_empty, are_passed, is_between, is_row, same_number, stand_first};
ghost use Rattle.world_model.specs.Book.{has_part, hold_without};
ghost use Rattle.world_model.specs.Death.{released_row};
ghost use Rattle.world_model.specs.SlotCalls.{holds, slot_row};
ghost use Rattle.kernel_journal.specs.declared.row.Row.TheVariants.{Own};
ghost use Rattle.ledger_audit.specs.Answer.{rows_of};
ghost use Rattle.ledger_audit.specs.Auditor.{IsBehind, state_of};

use crate::state::State;
use aegis_limits::MOST_SLOTS;
use kernel_journal::Row;
use world_model::Hold;

/// Whether these are the same number, or no number both.
pub(crate) fn same_number(a: Option<u8>, b: Option<u8>) -> bool
    ensures { result ≡ same_number a b }
{
    match (a, b) {
        (Some(a), Some(b)) => a == b,
        (None, None) => true,
        _ => false,
    }
}

/// Whether a slot's holder is this one.
pub(crate) fn holds(env: u8, slot: Option<Hold>) -> bool
    ensures { result ≡ holds env slot }
{
    match slot {
        Some(hold) => hold.is_held_by(env),
        None => false,
    }
}

/// Whether it is the row of this time and this slot, with this owner and this holder.
fn is_own_row(row: &Row, at: u32, of: u32, a: Option<u8>, b: Option<u8>) -> bool
    ensures { result ≡ is_row (Own at of a b) row.now }
{
    match *row {
        Row::Own {
            time,
            slot,
            owner,
            holder,
        } => at == time && of == slot && same_number(a, owner) && same_number(b, holder),
        _ => false,
    }
}

/// Whether it is the row of a slot that has this.
pub(crate) fn is_slot_row(row: &Row, at: u32, of: u32, hold: Option<Hold>) -> bool
    ensures { result ≡ is_row (slot_row at of hold) row.now }
{
    match hold {
        Some(hold) => is_own_row(row, at, of, Some(hold.owner), Some(hold.holder)),
        None => is_own_row(row, at, of, None, None),
    }
}

/// Whether an environment owns or holds a slot.
fn has_part(env: u8, slot: Option<Hold>) -> bool
    ensures { result ≡ has_part env slot }
{
    match slot {
        Some(hold) => hold.has_part(env),
        None => false,
    }
}

/// A slot once an environment is gone.
fn hold_without(env: u8, slot: Option<Hold>) -> Option<Hold>
    ensures { result ≡ hold_without env slot }
{
    slot?.without(env)
}

/// How many slots change once an environment is gone.
#[tactic(auto, using(crate::proofs::Releasing::count_next))]
pub(crate) fn released_count(slots: &[Option<Hold>; MOST_SLOTS], time: u32, env: u8) -> usize
    ensures { result ≡ length (released_by time env (λ k. slice_index_or slots.now k None)) }
{
    let mut count = 0;
    for k in 0..MOST_SLOTS {
        if has_part(env, slots[k]) {
            count += 1;
        }
    }
    count
}

/// Whether the next rows are those of the slots that change once an environment is gone, by rising slot.
pub(crate) fn released_stand(
    slots: &[Option<Hold>; MOST_SLOTS],
    time: u32,
    env: u8,
    later: &[(u32, Row)],
) -> bool
    ensures { result ≡ stand_first (released_by time env (λ k. slice_index_or slots.now k None)) (rows_of later.now) }
{
    let mut left = later;
    for k in 0..MOST_SLOTS {
        let Some(rest) = behind_released(time, env, k as u32, slots[k], left) else {
            return false;
        };
        left = rest;
    }
    true
}

/// What stands behind the row of a slot that changes once an environment is gone, if that row stands first; and of
/// one that doesn't change, all rows.
fn behind_released(
    time: u32,
    env: u8,
    slot: u32,
    hold: Option<Hold>,
    left: &[(u32, Row)],
) -> Option<&[(u32, Row)]>
    ensures some { IfSome result (λ rest. IsBehind (released_row time env slot hold) (rows_of left.now) (rows_of rest.now)) }
    ensures none { IfNone result (stand_first (released_row time env slot hold) (rows_of left.now) ≡ false) }
{
    if !has_part(env, hold) {
        return Some(left);
    }
    let [(_, row), rest @ ..] = left else {
        return None;
    };
    if is_slot_row(row, time, slot, hold_without(env, hold)) {
        Some(rest)
    } else {
        None
    }
}

/// Whether no slot has a holder.
pub(crate) fn are_empty(state: &State) -> bool
    ensures { result ≡ are_empty (state_of state.now) }
{
    for k in 0..MOST_SLOTS {
        if state.slots[k].is_some() {
            return false;
        }
    }
    true
}

/// Whether no slot between the cursor and this one has a holder.
pub(crate) fn are_passed(state: &State, slot: u32) -> bool
    ensures { result ≡ are_passed (state_of state.now) slot }
{
    for k in 0..MOST_SLOTS {
        if is_between(state.cursor, slot, k as u32) && state.slots[k].is_some() {
            return false;
        }
    }
    true
}

/// Whether a slot stands between the cursor and another, where slot 0 follows the last one.
fn is_between(cursor: u32, slot: u32, k: u32) -> bool
    ensures { result ≡ is_between cursor slot k }
{
    if cursor < slot {
        cursor < k && k < slot
    } else {
        cursor < k || k < slot
    }
}
