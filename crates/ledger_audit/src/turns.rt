//! Turns, slices and their limits, as the rows of a ledger tell of them.
ghost use Rattle.std.specs.Prelude.{◌≡◌, ◌<◌, ◌≤◌};
ghost use Rattle.aegis_limits.specs.Limits.{environment_numbers, most_slots};
ghost use Rattle.ledger_audit.specs.LedgerState.{excess_in, limit_in};
ghost use Rattle.ledger_audit.specs.RowRules.{is_end, is_gift, is_in_time, is_next, is_runners};
ghost use Rattle.ledger_audit.specs.Auditor.{state_of};

use crate::slots::{are_empty, are_passed, holds};
use crate::state::State;
use kernel_journal::Row;
use world_model::Phase;

/// What an environment ran past its slices and hasn't forfeited.
pub(crate) fn excess_in(state: &State, env: u8) -> u64
    requires { env < environment_numbers }
    ensures { result ≡ excess_in (state_of state.now) env }
{
    if state.dead[env as usize] {
        0
    } else {
        state.overs[env as usize].saturating_sub(state.pays[env as usize])
    }
}

/// The last tick of the runner's quantum.
pub(crate) fn limit_in(state: &State, quantum: u32) -> u64
    requires { 1 ≤ quantum }
    ensures { result ≡ limit_in quantum (state_of state.now) }
{
    match state.phase {
        Phase::Own => u64::from(state.slice_start) + u64::from(quantum) - 1,
        Phase::Grace => u64::from(state.grace_start) + u64::from(quantum),
    }
}

/// Whether an environment runs, in the turn's slot.
pub(crate) fn is_runners(state: &State, slot: u32, env: u8) -> bool
    ensures { result ≡ is_runners (state_of state.now) slot env }
{
    state.runner == Some(env) && slot == state.cursor
}

/// Whether a slice may be handed on to this environment.
pub(crate) fn is_gift(state: &State, slot: u32, from: u8, to: u8) -> bool
    requires { to < environment_numbers }
    ensures { result ≡ is_gift (state_of state.now) slot from to }
{
    is_runners(state, slot, from)
        && from != to
        && !state.dead[to as usize]
        && matches!(state.phase, Phase::Own)
}

/// Whether it is the next turn, and whose.
pub(crate) fn is_next(state: &State, time: u32, slot: u32, env: u8) -> bool
    requires slot { slot < most_slots }
    requires env { env < environment_numbers }
    ensures { result ≡ is_next (state_of state.now) time slot env }
{
    state.runner.is_none()
        && time == state.turn
        && !state.dead[env as usize]
        && holds(env, state.slots[slot as usize])
        && are_passed(state, slot)
}

/// Whether a row's time may stand behind the rows so far.
pub(crate) fn is_in_time(state: &State, quantum: u32, end: u32, row: &Row) -> bool
    requires { 1 ≤ quantum }
    ensures { result ≡ is_in_time quantum end (state_of state.now) row.now }
{
    let time = row.time();
    if matches!(row, Row::Own { .. }) && state.at_boot {
        return time == 0;
    }
    let within = state.runner.is_none() || u64::from(time) <= limit_in(state, quantum);
    state.time <= time && time < end && within
}

/// Whether a run may have ended there.
pub(crate) fn is_end(state: &State, quantum: u32, idle: bool, time: u32) -> bool
    requires { 1 ≤ quantum }
    ensures { result ≡ is_end quantum idle time (state_of state.now) }
{
    if state.runner.is_some() {
        !idle && u64::from(time) <= limit_in(state, quantum)
    } else {
        time == state.turn && (!idle || are_empty(state))
    }
}
