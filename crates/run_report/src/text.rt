//! The whole report.
ghost use Rattle.std.specs.Prelude.{◌≡◌, ◌++◌, OnOk, IfOk};
ghost use Rattle.machine_text.specs.Series.{for_each};
ghost use Rattle.run_report.specs.Report.{env_text, end_text, end_line, report_line, report_text, summary_text};

use crate::environment::push_env;
use crate::ledger::push_rows;
use crate::room::room;
use crate::sums::push_sums;
use crate::words::number;
use aegis_limits::OutOfMemory;
use kernel_journal::RunEnd;
use line_text::{Word, push_line, push_word};
use machine_text::fingerprint;
use std::alloc::Global;
use world_model::WorldView;

/// The report of whatever shows a world, whose run ended in this way (`docs/REPORT.md`, "The report"). It is written into
/// one buffer, whose room is taken once.
#[tactic(auto, unfolding(crate::specs::Report::report_text))]
pub fn report<V: WorldView>(alloc: Global, view: &V, end: RunEnd) -> Result<Vec<u8>, OutOfMemory>
    ensures { IfOk result (λ v. v.items ≡ report_text (V.world view.now) end) }
{
    let mut out = Vec::with_capacity(alloc, room(view))?;
    push_word(&mut out, Word::Text(b"aegis run\n"))?;
    push_end_line(&mut out, view, end)?;
    push_envs(&mut out, view)?;
    push_rows(&mut out, view.journal())?;
    push_sums(&mut out, view)?;
    push_word(&mut out, Word::Text(b"done\n"))?;
    Ok(out)
}

/// Appends a run in short: how it ended, the sums of each environment, and the fingerprint of its report
/// (`docs/REPORT.md`, "The summary").
#[tactic(auto, unfolding(crate::specs::Report::summary_text))]
pub fn push_summary<V: WorldView>(
    alloc: Global,
    out: &mut Vec<u8>,
    view: &V,
    end: RunEnd,
) -> Result<(), OutOfMemory>
    ensures { OnOk result (out.new.items ≡ out.old.items ++ summary_text (V.world view.now) end) }
{
    push_end_line(out, view, end)?;
    push_sums(out, view)?;
    push_report_line(alloc, out, view, end)?;
    push_word(out, Word::Text(b"done\n"))
}

/// Appends the line of a report's fingerprint. The report is made, and given up again.
#[tactic(auto, unfolding(crate::specs::Report::report_line, line_text::specs::WrittenLine::line_of))]
fn push_report_line<V: WorldView>(
    alloc: Global,
    out: &mut Vec<u8>,
    view: &V,
    end: RunEnd,
) -> Result<(), OutOfMemory>
    ensures { OnOk result (out.new.items ≡ out.old.items ++ report_line (V.world view.now) end) }
{
    let report = report(alloc, view, end)?;
    let fingerprint = fingerprint(&report);
    push_line(out, b"report", &[Word::Text(&fingerprint)])
}

/// Appends the line of how the run ended, and when.
#[tactic(auto, unfolding(crate::specs::Report::end_line, line_text::specs::WrittenLine::line_of))]
pub fn push_end_line<V: WorldView>(
    out: &mut Vec<u8>,
    view: &V,
    end: RunEnd,
) -> Result<(), OutOfMemory>
    ensures { OnOk result (out.new.items ≡ out.old.items ++ end_line (V.world view.now) end) }
{
    let how = Word::Text(end_text(end));
    push_line(out, b"end", &[how, number(view.time())])
}

/// The name of how a run ended.
fn end_text(end: RunEnd) -> &'static [u8]
    ensures { result.now ≡ end_text end }
{
    match end {
        RunEnd::Limit => b"limit",
        RunEnd::Idle => b"idle",
    }
}

/// Appends the lines of each environment.
#[tactic(auto, using(std::proofs::lemmas::Grind::common_steps, machine_text::proofs::Series::for_each_more))]
fn push_envs<V: WorldView>(out: &mut Vec<u8>, view: &V) -> Result<(), OutOfMemory>
    ensures { OnOk result (out.new.items ≡ out.old.items ++ for_each (env_text (V.world view.now)) (V.world view.now).count) }
{
    for env in 0..view.envs() {
        push_env(out, view, env)?;
    }
    Ok(())
}
