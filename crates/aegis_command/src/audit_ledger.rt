//! The command `audit REPORT QUANTUM`, with or without a plan, by the first table of rules or by both.
ghost use Rattle.std.specs.Prelude.{◌≡◌, ◌<◌, ◌^◌, IfOk, IfSome, length, map, option_map, string_bytes};
ghost use Rattle.std.specs.Option.{option_copied};
ghost use Rattle.commands.specs.Work.{Settles};
ghost use Rattle.ledger_text.specs.LedgerText.{ledger_seen};
ghost use Rattle.ledger_text.specs.PlanText.{plan_read, plan_seen};
ghost use Rattle.ledger_text.specs.Within.{IsLedgerWithin, IsPlanWithin};
ghost use Rattle.aegis_command.specs.AuditLedger.{answer_of, audit_due, audit_seen, audit_with, audit_words, broken_text, file_refused, ok_text, plan_due};

use crate::ranged::Quantum;
use aegis_limits::OutOfMemory;
use commands::{Answer, Command, Status, content};
use ledger_audit::{AuditAnswer, audit, audit_strictly};
use ledger_text::{Ledger, LedgerWhy, Plan, law_within, read_ledger, read_plan};
use line_text::{Failure, LineFault, Word, push_line};
use std::alloc::Global;

/// The first word of what is written.
const AUDIT: &[u8] = b"audit";

/// The word that asks for both tables of rules.
const STRICT: &str = "strict";

/// `audit REPORT QUANTUM` or `audit REPORT QUANTUM PLAN`, and `strict` behind it or not: whether a report keeps the rules of
/// the ledger, and a plan.
#[derive(Clone, Copy)]
pub struct AuditLedger<'a> {
    /// The name of the report.
    pub report: &'a str,
    /// The quantum of its image.
    pub quantum: Quantum,
    /// The name of the plan, if there is one.
    pub plan: Option<&'a str>,
    /// Whether the second table of rules is tested too.
    pub strict: bool,
}

impl<'a> AuditLedger<'a> {
    /// The audit that the words behind `audit` ask for, if they are one's.
    pub fn parse(words: &'a [String]) -> Option<AuditLedger<'a>>
        ensures { option_map audit_seen result ≡ audit_words (map string_bytes words.now) }
    {
        match words {
            [report, quantum] => AuditLedger::with(report.as_str(), quantum.as_str(), None, false),
            [report, quantum, last] if last.as_str() == STRICT => {
                AuditLedger::with(report.as_str(), quantum.as_str(), None, true)
            }
            [report, quantum, plan] => {
                AuditLedger::with(
                    report.as_str(),
                    quantum.as_str(),
                    Some(plan.as_str()),
                    false,
                )
            }
            [report, quantum, plan, last] if last.as_str() == STRICT => {
                AuditLedger::with(report.as_str(), quantum.as_str(), Some(plan.as_str()), true)
            }
            _ => None,
        }
    }

    /// The audit of a report, if the word is a quantum.
    fn with(
        report: &'a str,
        quantum: &str,
        plan: Option<&'a str>,
        strict: bool,
    ) -> Option<AuditLedger<'a>>
        ensures { option_map audit_seen result ≡ audit_with report.now quantum.now (option_copied plan.entry) strict }
    {
        let quantum = Quantum::parse(quantum)?;
        Some(AuditLedger {
            report,
            quantum,
            plan,
            strict,
        })
    }
}

/// The line that says how many rows keep the rules.
#[tactic(auto, unfolding(crate::specs::AuditLedger::ok_text, line_text::specs::WrittenLine::line_of))]
fn ok_text(alloc: Global, rows: usize) -> Result<Vec<u8>, OutOfMemory>
    ensures { IfOk result (λ text. text.items ≡ ok_text rows) }
{
    let mut text = Vec::new(alloc);
    push_line(
        &mut text,
        AUDIT,
        &[Word::Text(b"ok"), Word::Number(rows as u64)],
    )?;
    Ok(text)
}

/// The line that names the line which breaks them.
#[tactic(auto, unfolding(crate::specs::AuditLedger::broken_text, line_text::specs::WrittenLine::line_of))]
fn broken_text(alloc: Global, place: u32) -> Result<Vec<u8>, OutOfMemory>
    ensures { IfOk result (λ text. text.items ≡ broken_text place) }
{
    let mut text = Vec::new(alloc);
    push_line(
        &mut text,
        AUDIT,
        &[Word::Text(b"line"), Word::Number(u64::from(place))],
    )?;
    Ok(text)
}

/// The auditor's answer, by both tables of rules or by the first.
fn answer_of(strict: bool, ledger: &Ledger, quantum: Quantum, plan: Option<&Plan>) -> AuditAnswer
    requires ledger { IsLedgerWithin (ledger_seen ledger.now) }
    requires plan { IfSome plan (λ p. IsPlanWithin (plan_seen p.now)) }
    ensures { result ≡ answer_of strict quantum.number (option_map plan_seen (option_copied plan.entry)) (ledger_seen ledger.now) }
{
    if strict {
        audit_strictly(ledger, quantum.number, plan)
    } else {
        audit(ledger, quantum.number, plan)
    }
}

/// What is due for a ledger and a plan.
fn audit_due(
    alloc: Global,
    strict: bool,
    ledger: &Ledger,
    quantum: Quantum,
    plan: Option<&Plan>,
) -> Result<Answer, OutOfMemory>
    requires ledger { IsLedgerWithin (ledger_seen ledger.now) }
    requires plan { IfSome plan (λ p. IsPlanWithin (plan_seen p.now)) }
    ensures { IfOk result (Settles (audit_due strict quantum.number (option_map plan_seen (option_copied plan.entry)) (ledger_seen ledger.now))) }
{
    match answer_of(strict, ledger, quantum, plan) {
        AuditAnswer::Clean => Ok(Answer {
            text: ok_text(alloc, ledger.rows.len())?,
            status: Status::Done,
        }),
        AuditAnswer::Broken { line } => Ok(Answer {
            text: broken_text(alloc, line)?,
            status: Status::Found,
        }),
    }
}

/// The refusal of a file.
fn refusal(alloc: Global, name: &str, fault: LineFault<LedgerWhy>) -> Result<Answer, OutOfMemory>
    ensures { IfOk result (Settles (file_refused name.now fault)) }
{
    Answer::refusal(alloc, name, fault.why.name(), fault.line)
}

/// What is due for a ledger, and a plan that is still a text.
fn plan_due(
    alloc: Global,
    name: &str,
    strict: bool,
    ledger: &Ledger,
    quantum: Quantum,
    text: &[u8],
) -> Result<Answer, OutOfMemory>
    requires ledger { IsLedgerWithin (ledger_seen ledger.now) }
    requires short { length text.now < 2 ^ 27 }
    ensures { IfOk result (Settles (plan_due name.now strict quantum.number (ledger_seen ledger.now) (plan_read text.now))) }
{
    law_within();
    match read_plan(alloc, text) {
        Ok(plan) => audit_due(alloc, strict, ledger, quantum, Some(&plan)),
        Err(Failure::Fault(fault)) => refusal(alloc, name, fault),
        Err(Failure::OutOfMemory) => Err(OutOfMemory),
    }
}

impl Command for AuditLedger<'_> {
    ghost value = { audit_seen };

    fn names(&self, alloc: Global) -> Result<Vec<String>, OutOfMemory> {
        let report = String::from_str(alloc, self.report)?;
        match self.plan {
            None => Ok(vec![in alloc; report]?),
            Some(plan) => {
                let plan = String::from_str(alloc, plan)?;
                Ok(vec![in alloc; report, plan]?)
            }
        }
    }

    fn further(&self, alloc: Global, _contents: &[Vec<u8>]) -> Result<Vec<String>, OutOfMemory> {
        Ok(Vec::new(alloc))
    }

    fn answer(&self, alloc: Global, contents: &[Vec<u8>]) -> Result<Answer, OutOfMemory> {
        law_within();
        let ledger = match read_ledger(alloc, content(contents, 0)) {
            Ok(ledger) => ledger,
            Err(Failure::Fault(fault)) => return refusal(alloc, self.report, fault),
            Err(Failure::OutOfMemory) => return Err(OutOfMemory),
        };
        match self.plan {
            None => audit_due(alloc, self.strict, &ledger, self.quantum, None),
            Some(name) => {
                let text = content(contents, 1);
                plan_due(alloc, name, self.strict, &ledger, self.quantum, text)
            }
        }
    }
}
