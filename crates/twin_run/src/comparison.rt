//! Two runs compared.
ghost use Rattle.std.specs.Prelude.{◌≡◌, IfOk, OnOk, true};
ghost use Rattle.aegis_limits.specs.Limits.{most_run_ticks};
ghost use Rattle.run_model.specs.Run.{world_after};
ghost use Rattle.run_report.specs.Report.{env_text};
ghost use Rattle.twin_run.specs.Answer.{is_there, twin_answer};
ghost use Rattle.twin_run.specs.Course.{Begins, IsDifference, WentOnTo, settled};
ghost use Rattle.twin_run.specs.Law.{IsSameWhereEqual};

use crate::answer::{Side, TwinAnswer};
use crate::course::{read_same, slices_short};
use crate::difference::{Difference, next_difference};
use aegis_limits::OutOfMemory;
use feed_log::ToldRun;
use machine_text::fingerprint;
use run_report::env_lines;
use std::alloc::Global;

/// The first difference of what two runs give up to the end of so many slices, if there is one. Neither run goes on
/// behind the end.
fn first_difference<R: ToldRun>(
    alloc: Global,
    left: &mut R,
    right: &mut R,
    slices: u32,
) -> Result<Option<Difference>, OutOfMemory>
    requires left { Begins (R.progress left.old).env (R.progress left.old) }
    requires right { Begins (R.progress left.old).env (R.progress right.old) }
    requires left_whole { R.IsWhole left.old }
    requires right_whole { R.IsWhole right.old }
    ensures difference { IfOk result (IsDifference (R.progress left.old).system (R.progress right.old).system (R.progress left.old).env slices) }
    ensures left { OnOk result (WentOnTo slices (R.progress left.old) (R.progress left.new)) }
    ensures right { OnOk result (WentOnTo slices (R.progress right.old) (R.progress right.new)) }
    ensures left_whole { OnOk result (R.IsWhole left.new) }
    ensures right_whole { OnOk result (R.IsWhole right.new) }
{
    let index = read_same(left, right, slices)?;
    next_difference(alloc, left, right, index)
}

/// What is answered of two runs that have come to the end of the slices.
fn settle<R: ToldRun>(
    alloc: Global,
    left: &R,
    env: u8,
    difference: Option<Difference>,
) -> Result<TwinAnswer, OutOfMemory>
    requires whole { R.IsWhole left.now }
    requires there { is_there (R.progress left.now).system env ≡ true }
    ensures { IfOk result (λ answer. answer ≡ settled (env_text (world_after (R.progress left.now).system (R.progress left.now).ticks) env) difference) }
{
    match difference {
        None => Ok(TwinAnswer::Same {
            fingerprint: fingerprint(&env_lines(alloc, left.view(), env)?),
        }),
        Some(Difference { index, left, right }) => {
            Ok(TwinAnswer::FeedsDiffer { index, left, right })
        }
    }
}

/// Compares two runs by what an environment is given in them, from its record at boot up to the end of its slice of this
/// number (`docs/REPORT.md`, "Two runs compared"). Either run is at its begin, and has at most `MOST_RUN_TICKS` ticks.
pub fn twin<R: ToldRun>(
    alloc: Global,
    left: &mut R,
    right: &mut R,
    env: u8,
    slices: u32,
) -> Result<TwinAnswer, OutOfMemory>
    requires left { Begins env (R.progress left.old) }
    requires right { Begins env (R.progress right.old) }
    requires left_whole { R.IsWhole left.old }
    requires right_whole { R.IsWhole right.old }
    ensures answer { IfOk result (λ answer. answer ≡ twin_answer (R.progress left.old).system (R.progress right.old).system env slices most_run_ticks) }
    ensures equal { IfOk result (IsSameWhereEqual (R.progress left.old).system (R.progress right.old).system env slices) }
{
    let difference = first_difference(alloc, left, right, slices)?;
    if let Some(slices) = slices_short(left, env, slices)? {
        return Ok(TwinAnswer::NotReached {
            which: Side::Left,
            slices,
        });
    }
    if let Some(slices) = slices_short(right, env, slices)? {
        return Ok(TwinAnswer::NotReached {
            which: Side::Right,
            slices,
        });
    }
    settle(alloc, left, env, difference)
}
