//! The trace of a whole run.
ghost use Rattle.std.specs.Prelude.{◌≡◌, ◌++◌, [], ◌∷◌, ◌≤◌, ◌<◌, ◌+◌, codes, false, IfOk, OnOk, true};
ghost use Rattle.aegis_limits.specs.Limits.{most_ticks};
ghost use Rattle.external_event.specs.Order.{are_in_order};
ghost use Rattle.line_text.specs.Text.{dec_text};
ghost use Rattle.line_text.specs.WrittenLine.{line};
ghost use Rattle.world_model.specs.Book.{is_idle_book};
ghost use Rattle.run_model.specs.Run.{world_after};
ghost use Rattle.board_model.specs.Showing.{world_of};
ghost use Rattle.board_model.specs.Stretch.{AreSteady, IsQuiet};
ghost use Rattle.aegis_tick.specs.OnCourse.{IsMidway, IsOn, system_of};
ghost use Rattle.trace_view.specs.Others.{AnotherRuns};
ghost use Rattle.trace_view.specs.Trace.{line_in, trace_lines, tick_line, trace_text};

use crate::step::push_step;
use aegis_limits::OutOfMemory;
use aegis_tick::{Course, end_of_run, law_idle};
use boot_image::Image;
use external_event::Event;
use line_text::{Word, push_line, push_word};
use run_model::law_time;
use run_report::push_end_line;
use std::alloc::Global;
use tlb_course::law_further;
use world_model::WorldView;

/// Makes the second half of a tick, and appends the line of the environment's step, if it makes one.
fn push_half(out: &mut Vec<u8>, course: &mut Course<'_, '_, '_>, env: u8) -> Result<(), OutOfMemory>
    requires { IsMidway course.old }
    ensures text { OnOk result (out.new.items ≡ out.old.items ++ tick_line env (world_of course.old.board) (world_of course.new.board)) }
    ensures on { OnOk result (IsOn course.new) }
    ensures time { OnOk result (course.new.board.time ≡ course.old.board.time + 1) }
    ensures system { OnOk result (system_of course.new ≡ system_of course.old) }
{
    if env < course.board.envs() && course.board.runner() == Some(env) {
        return push_step(out, course, env);
    }
    course.finish();
    Ok(())
}

/// Makes the next tick, and appends the line of the environment's step, if it makes one.
fn push_tick(out: &mut Vec<u8>, course: &mut Course<'_, '_, '_>, env: u8) -> Result<(), OutOfMemory>
    requires on { IsOn course.old }
    requires busy { is_idle_book (world_of course.old.board).book ≡ false }
    requires time { course.old.board.time < most_ticks }
    ensures text { OnOk result (out.new.items ≡ out.old.items ++ line_in (system_of course.old) env course.old.board.time) }
    ensures on { OnOk result (IsOn course.new) }
    ensures time { OnOk result (course.new.board.time ≡ course.old.board.time + 1) }
    ensures system { OnOk result (system_of course.new ≡ system_of course.old) }
{
    course.begin()?;
    push_half(out, course, env)?;
    Ok(())
}

/// Makes plain ticks of another environment, at most so many, and none while the environment itself runs. The result is
/// how many. The environment has no line in them.
fn pass_others(course: &mut Course<'_, '_, '_>, env: u8, most: u32) -> u32
    requires on { IsOn course.old }
    requires limit { course.old.board.time + most ≤ most_ticks }
    ensures on { IsOn course.new }
    ensures time { course.new.board.time ≡ course.old.board.time + result }
    ensures most { result ≤ most }
    ensures system { system_of course.new ≡ system_of course.old }
    ensures quiet { IsQuiet (system_of course.old).schedule course.old.board.time (course.old.board.time + result) }
    ensures steady { 0 < result → AreSteady course.old.board (system_of course.old).schedule result }
    ensures others { 0 < result → AnotherRuns env (world_of course.old.board) }
{
    match course.board.runner() {
        Some(runner) if runner != env => course.glide(most),
        _ => 0,
    }
}

/// Makes the ticks of a run from one on up to a limit, or fewer where the board is idle before, and appends the lines of the
/// environment's steps.
fn push_ticks(
    out: &mut Vec<u8>,
    course: &mut Course<'_, '_, '_>,
    from: u32,
    ticks: u32,
    env: u8,
) -> Result<(), OutOfMemory>
    requires on { IsOn course.old }
    requires begins { course.old.board.time ≤ from }
    requires idle { course.old.board.time < from → is_idle_book (world_of course.old.board).book ≡ true }
    requires within { from ≤ ticks }
    requires limit { ticks ≤ most_ticks }
    ensures text { OnOk result (out.new.items ≡ out.old.items ++ trace_lines (system_of course.old) env from course.new.board.time) }
    ensures world { OnOk result (world_of course.new.board ≡ world_after (system_of course.old) ticks) }
{
    law_idle();
    law_time();
    law_further();
    while course.board.time() < ticks && !course.board.idle() {
        push_tick(out, course, env)?;
        let left = ticks - course.board.time();
        pass_others(course, env, left);
    }
    Ok(())
}

/// Appends the line that names the environment.
#[tactic(auto, unfolding(line_text::specs::WrittenLine::line_of))]
fn push_heading(out: &mut Vec<u8>, env: u8) -> Result<(), OutOfMemory>
    ensures { OnOk result (out.new.items ≡ out.old.items ++ line (codes "aegis" ∷ codes "trace" ∷ dec_text env ∷ [])) }
{
    let number = Word::Number(u64::from(env));
    push_line(out, b"aegis", &[Word::Text(b"trace"), number])
}

/// The trace of an environment in a run of an image for so many ticks, in which these events happen
/// (`docs/REPORT.md`, "The trace"): a line for each tick, from one on, in which it makes a step, and how the run ended. An
/// environment that the image lacks has no line.
#[tactic(auto, unfolding(crate::specs::Trace::trace_text))]
pub fn trace(
    alloc: Global,
    image: &Image<'_>,
    events: &[Event],
    from: u32,
    ticks: u32,
    env: u8,
) -> Result<Vec<u8>, OutOfMemory>
    requires order { are_in_order 0 events.now ≡ true }
    requires within { from ≤ ticks }
    requires limit { ticks ≤ most_ticks }
    ensures { IfOk result (λ text. text.items ≡ trace_text image.now events.now from ticks env) }
{
    let mut course = Course::boot(alloc, image, events)?;
    course.run_long(from)?;
    let mut out = Vec::new(alloc);
    push_heading(&mut out, env)?;
    push_ticks(&mut out, &mut course, from, ticks, env)?;
    push_end_line(&mut out, &course.board, end_of_run(&course.board, ticks))?;
    push_word(&mut out, Word::Text(b"done\n"))?;
    Ok(out)
}
