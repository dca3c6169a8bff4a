//! Whether a row fits between those before it and those behind it.
ghost use Rattle.std.specs.Prelude.{◌≡◌, ◌≤◌, ◌<◌, ◌∷◌, [], option_map};
ghost use Rattle.aegis_limits.specs.Limits.{environment_numbers, most_slots};
ghost use Rattle.kernel_journal.specs.declared.row.Row.TheVariants as row;
ghost use Rattle.ledger_audit.specs.RowRules.{dies_next, is_behind, is_judged, stand_first};
ghost use Rattle.kernel_journal.specs.RowTable.{IsRowWithin};
ghost use Rattle.world_model.specs.SlotCalls.{held_by, slot_row};
ghost use Rattle.ledger_audit.specs.Answer.{rows_of};
ghost use Rattle.ledger_audit.specs.Auditor.{fits, fits_by_kind, is_runners_change, own_fits, state_of};

use crate::slots::{holds, is_slot_row, released_stand, same_number};
use crate::state::State;
use crate::turns::{excess_in, is_gift, is_in_time, is_next, is_runners, limit_in};
use aegis_limits::EXCESS_LIMIT;
use kernel_journal::Row;
use world_model::{Hold, Phase};

/// Whether a row fits before later ones, in a ledger that ends at this time.
pub(crate) fn fits(state: &State, quantum: u32, end: u32, row: &Row, later: &[(u32, Row)]) -> bool
    requires quantum { 1 ≤ quantum }
    requires within { IsRowWithin row.now }
    ensures { result ≡ fits state.now.due quantum end (state_of state.now) row.now (rows_of later.now) }
{
    is_in_time(state, quantum, end, row) && fits_by_kind(state, quantum, row, later)
}

/// Whether it does but for its time.
fn fits_by_kind(state: &State, quantum: u32, row: &Row, later: &[(u32, Row)]) -> bool
    requires quantum { 1 ≤ quantum }
    requires within { IsRowWithin row.now }
    ensures { result ≡ fits_by_kind state.now.due quantum (state_of state.now) row.now (rows_of later.now) }
{
    let time = row.time();
    match *row {
        Row::Own { .. } => fits_as_own(state, row),
        Row::Run { slot, env, .. } => {
            is_next(state, time, slot, env) && excess_in(state, env) == 0
        }
        Row::Pay { slot, env, .. } => is_next(state, time, slot, env) && 0 < excess_in(state, env),
        Row::Give { slot, from, to, .. } | Row::Async { slot, from, to, .. } => {
            is_gift(state, slot, from, to)
        }
        Row::Sync { slot, from, to, .. } => {
            let held = state.slots[slot as usize];
            is_gift(state, slot, from, to)
                && holds(from, held)
                && is_handed_on(held, time, slot, to, later)
        }
        Row::End { slot, env, .. } => {
            is_runners(state, slot, env)
                && matches!(state.phase, Phase::Own)
                && u64::from(time) == limit_in(state, quantum)
        }
        Row::Over {
            slot,
            env,
            excess,
            ..
        } => {
            is_runners(state, slot, env)
                && matches!(state.phase, Phase::Grace)
                && u64::from(time) == limit_in(state, quantum)
                && u64::from(excess) == excess_in(state, env).saturating_add(1)
                && is_judged(time, env, excess, later)
        }
        Row::Stop { slot, env, .. } => is_runners(state, slot, env),
        Row::Dead { slot, env, .. } => {
            is_runners(state, slot, env) && released_stand(&state.slots, time, env, later)
        }
        // The others may stand anywhere.
        _ => true,
    }
}

/// Whether an `own` row fits: at boot with a slot that rises, and later as one that is due, or as a change that the runner
/// makes.
fn fits_as_own(state: &State, row: &Row) -> bool
    requires { IsRowWithin row.now }
    ensures { result ≡ own_fits state.now.due (state_of state.now) row.now }
{
    let Row::Own {
        slot,
        owner,
        holder,
        ..
    } = *row
    else {
        return false;
    };
    if state.at_boot {
        is_behind(state.last_slot, slot) && same_number(owner, holder)
    } else {
        0 < state.due || is_change(state, row)
    }
}

/// Whether a slot's number rises.
fn is_behind(last: Option<u32>, slot: u32) -> bool
    ensures { result ≡ is_behind last slot }
{
    match last {
        Some(last) => last < slot,
        None => true,
    }
}

/// Whether an `own` row is a change that the runner makes: it takes an empty slot, or drops one that it holds.
fn is_change(state: &State, row: &Row) -> bool
    requires { IsRowWithin row.now }
    ensures { result ≡ is_runners_change (state_of state.now) row.now }
{
    let Row::Own { time, slot, .. } = *row else {
        return false;
    };
    let Some(env) = state.runner else {
        return false;
    };
    match state.slots[slot as usize] {
        None => is_slot_row(row, time, slot, Some(Hold::own(env))),
        Some(hold) => { hold.is_held_by(env) && is_slot_row(row, time, slot, hold.dropped_by(env)) }
    }
}

/// Whether the next row is that of a slot that is handed on.
fn is_handed_on(held: Option<Hold>, time: u32, slot: u32, to: u8, later: &[(u32, Row)]) -> bool
    ensures { result ≡ stand_first (slot_row time slot (option_map (held_by to) held) ∷ []) (rows_of later.now) }
{
    let [(_, row), ..] = later else {
        return false;
    };
    is_slot_row(row, time, slot, held_by(to, held))
}

/// A slot with another holder.
fn held_by(holder: u8, held: Option<Hold>) -> Option<Hold>
    ensures { result ≡ option_map (held_by holder) held }
{
    Some(held?.held_by(holder))
}

/// Whether an excess above the limit, and no other, is followed by death.
fn is_judged(time: u32, env: u8, excess: u32, later: &[(u32, Row)]) -> bool
    ensures { result ≡ is_judged time env excess (rows_of later.now) }
{
    let dies = dies_next(time, env, later);
    if excess == EXCESS_LIMIT + 1 {
        dies
    } else {
        !dies
    }
}

/// Whether the next row is the death of an environment.
fn dies_next(at: u32, of: u8, later: &[(u32, Row)]) -> bool
    ensures { result ≡ dies_next at of (rows_of later.now) }
{
    match later {
        [(_, Row::Dead { time, env, .. }), ..] => *time == at && *env == of,
        _ => false,
    }
}
