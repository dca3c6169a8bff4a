//! The strict audit: by both tables of rules.
ghost use Rattle.std.specs.Prelude.{◌≡◌, ◌≤◌, All, IfSome, drop, length, option_map};
ghost use Rattle.std.specs.Option.{option_copied};
ghost use Rattle.aegis_limits.specs.Limits.{least_quantum, most_quantum};
ghost use Rattle.kernel_journal.specs.RowTable.{IsRowWithin};
ghost use Rattle.ledger_text.specs.LedgerText.{ledger_seen};
ghost use Rattle.ledger_text.specs.PlanText.{plan_seen};
ghost use Rattle.ledger_text.specs.Within.{IsLedgerWithin, IsPlanWithin};
ghost use Rattle.ledger_audit.specs.StrictAnswer.{first_line, first_loose, first_strict_fault, strict_audit_of, wrong_count};
ghost use Rattle.ledger_audit.specs.StrictRules.{no_requests};

use crate::answer::AuditAnswer;
use crate::pass::first_fault;
use crate::requests::Requests;
use kernel_journal::Row;
use ledger_text::{Ledger, Plan};

/// Whether a ledger keeps both tables of rules that `docs/LEDGER_AUDIT.md` has, and the plan if one is given. The premises
/// are those of `audit`.
#[tactic(auto, unfolding(crate::specs::StrictAnswer::strict_audit_of))]
pub fn audit_strictly(ledger: &Ledger, quantum: u32, plan: Option<&Plan>) -> AuditAnswer
    requires quantum_least { least_quantum ≤ quantum }
    requires quantum_most { quantum ≤ most_quantum }
    requires ledger { IsLedgerWithin (ledger_seen ledger.now) }
    requires plan { IfSome plan (λ p. IsPlanWithin (plan_seen p.now)) }
    ensures { result ≡ strict_audit_of quantum (option_map plan_seen (option_copied plan.entry)) (ledger_seen ledger.now) }
{
    if let Some(line) = first_fault(ledger, quantum, plan) {
        return AuditAnswer::Broken { line };
    }
    match first_strict_fault(ledger) {
        Some(line) => AuditAnswer::Broken { line },
        None => AuditAnswer::Clean,
    }
}

/// The line of the first fault by the second table, if there is one.
fn first_strict_fault(ledger: &Ledger) -> Option<u32>
    requires { IsLedgerWithin (ledger_seen ledger.now) }
    ensures { result ≡ first_strict_fault (ledger_seen ledger.now) }
{
    let environments = ledger.environments.len();
    if let Some(line) = first_loose(environments, &ledger.rows) {
        return Some(line);
    }
    wrong_count(environments, ledger.done, &ledger.sums)
}

/// The line of the first row that breaks a rule of the second table, in a machine with so many environments.
fn first_loose(environments: usize, rows: &[(u32, Row)]) -> Option<u32>
    requires { All (λ x. IsRowWithin x.1) rows.now }
    ensures { result ≡ first_loose environments no_requests rows.now }
{
    let mut requests = Requests::none();
    let mut left = rows;
    'rows: while let [(line, row), later @ ..] = left {
        if !requests.allow(environments, row) {
            return Some(*line);
        }
        requests.note(row);
        left = later;
    }
    None
}

/// The line of the first sum too many, or of the line that stands where one is missing.
fn wrong_count(environments: usize, done: u32, sums: &[(u32, [u32; 4])]) -> Option<u32>
    ensures { result ≡ wrong_count environments done sums.now }
{
    if sums.len() < environments {
        return Some(done);
    }
    match &sums[environments..] {
        [(line, _), ..] => Some(*line),
        [] => None,
    }
}
