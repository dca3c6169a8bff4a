//! The auditor's pass.
ghost use Rattle.std.specs.Prelude.{◌≡◌, ◌≤◌, All, IfSome, IsTrue, option_map};
ghost use Rattle.std.specs.Option.{option_copied};
ghost use Rattle.aegis_limits.specs.Limits.{least_quantum, most_quantum};
ghost use Rattle.ledger_text.specs.LedgerText.{ledger_seen};
ghost use Rattle.ledger_text.specs.Limits.{last_environment};
ghost use Rattle.ledger_text.specs.PlanText.{plan_seen};
ghost use Rattle.ledger_text.specs.Within.{IsLedgerWithin, IsPlanWithin, IsSumWithin};
ghost use Rattle.ledger_audit.specs.Answer.{audit_of, first_fault, first_wrong_sum, is_sum};
ghost use Rattle.ledger_audit.specs.Auditor.{state_of};

use crate::answer::AuditAnswer;
use crate::fitting::fits;
use crate::gifts::Gifts;
use crate::state::State;
use crate::turns::is_end;
use ledger_text::{Ledger, Plan};

/// The line that says how a run ended.
const END_LINE: u32 = 2;

/// Whether a ledger keeps the rules, by its image's quantum, and the plan if one is given. `docs/LEDGER_AUDIT.md` has
/// the rules. The quantum, the ledger and the plan are within their limits, as the readers' are.
#[tactic(auto, unfolding(crate::specs::Answer::audit_of))]
pub fn audit(ledger: &Ledger, quantum: u32, plan: Option<&Plan>) -> AuditAnswer
    requires quantum_least { least_quantum ≤ quantum }
    requires quantum_most { quantum ≤ most_quantum }
    requires ledger { IsLedgerWithin (ledger_seen ledger.now) }
    requires plan { IfSome plan (λ p. IsPlanWithin (plan_seen p.now)) }
    ensures { result ≡ audit_of quantum (option_map plan_seen (option_copied plan.entry)) (ledger_seen ledger.now) }
{
    match first_fault(ledger, quantum, plan) {
        Some(line) => AuditAnswer::Broken { line },
        None => AuditAnswer::Clean,
    }
}

/// The line of the first fault, if there is one.
pub(crate) fn first_fault(ledger: &Ledger, quantum: u32, plan: Option<&Plan>) -> Option<u32>
    requires quantum { 1 ≤ quantum }
    requires ledger { IsLedgerWithin (ledger_seen ledger.now) }
    requires plan { IfSome plan (λ p. IsPlanWithin (plan_seen p.now)) }
    ensures { result ≡ first_fault quantum (option_map plan_seen (option_copied plan.entry)) (ledger_seen ledger.now) }
{
    let mut state = State::first();
    let mut gifts = Gifts::none();
    let mut left = ledger.rows.as_slice();
    'rows: while let Some(((line, row), later)) = left.split_first() {
        if !fits(&state, quantum, ledger.time, row, later) || !gifts.allow(plan, row) {
            return Some(*line);
        }
        state.note(row);
        gifts.note(plan, row);
        left = later;
    }
    if let Some(line) = first_wrong_sum(&state, &ledger.sums) {
        return Some(line);
    }
    if is_end(&state, quantum, ledger.idle, ledger.time) {
        None
    } else {
        Some(END_LINE)
    }
}

/// The line of the first sum that doesn't count right, if there is one.
fn first_wrong_sum(state: &State, sums: &[(u32, [u32; 4])]) -> Option<u32>
    requires { All (λ x. IsSumWithin x.1) sums.now }
    ensures { result ≡ first_wrong_sum (state_of state.now) 0 sums.now }
{
    let mut env = 0;
    let mut left = sums;
    'sums: while let [(line, sum), rest @ ..] = left {
        if !is_sum(state, env, sum) {
            return Some(*line);
        }
        env += 1;
        left = rest;
    }
    None
}

/// Whether a sum is of this environment, and has how many of its rows are runs, pays and overs.
fn is_sum(state: &State, env: u32, sum: &[u32; 4]) -> bool
    requires { IsSumWithin sum.now }
    ensures same { result ≡ is_sum (state_of state.now) env sum.now }
    ensures within { IsTrue result → env ≤ last_environment }
{
    let place = env as usize;
    sum[0] == env
        && u64::from(sum[1]) == state.runs[place]
        && u64::from(sum[2]) == state.pays[place]
        && u64::from(sum[3]) == state.overs[place]
}
