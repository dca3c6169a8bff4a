//! The line of a step.
ghost use Rattle.std.specs.Prelude.{◌≡◌, ◌++◌, ◌∷◌, ◌<◌, ◌+◌, OnOk, Some};
ghost use Rattle.std.specs.List.{flat_map};
ghost use Rattle.line_text.specs.Text.{dec_text, hex_text};
ghost use Rattle.line_text.specs.WrittenLine.{spaced};
ghost use Rattle.world_model.specs.Book.{running};
ghost use Rattle.board_model.specs.Showing.{world_of};
ghost use Rattle.aegis_tick.specs.OnCourse.{IsMidway, IsOn, system_of};
ghost use Rattle.trace_view.specs.Trace.{outcome_words, step_line, word_words};

use crate::fetch::next_word;
use aegis_calls::Board;
use aegis_limits::OutOfMemory;
use aegis_tick::Course;
use line_text::{Word, end_line, push_spaced, push_word};
use machine_text::push_differences;
use mips_exec::Cpu;
use mips_list::push_word_text;
use world_model::{Life, WorldView};

/// Appends the word that stands at an address, and its instruction; or that its fetch is refused.
fn push_fetch(out: &mut Vec<u8>, address: u32, word: Option<u32>) -> Result<(), OutOfMemory>
    ensures { OnOk result (out.new.items ≡ out.old.items ++ flat_map spaced (word_words address word)) }
{
    let Some(word) = word else {
        return push_word(out, Word::Text(b" -------- fetch"));
    };
    push_spaced(out, Word::Hexadecimal(word))?;
    push_word(out, Word::Text(b" "))?;
    push_word_text(word, address, out)
}

/// Appends the time of a step, its address, and what it fetches.
fn push_head(
    out: &mut Vec<u8>,
    time: u32,
    address: u32,
    word: Option<u32>,
) -> Result<(), OutOfMemory>
    ensures { OnOk result (out.new.items ≡ out.old.items ++ dec_text time ++ flat_map spaced (hex_text 8 address ∷ word_words address word)) }
{
    push_word(out, Word::Number(u64::from(time)))?;
    push_spaced(out, Word::Hexadecimal(address))?;
    push_fetch(out, address, word)
}

/// Appends what a tick left of an environment that had these registers.
fn push_outcome(out: &mut Vec<u8>, before: &Cpu, board: &Board, env: u8) -> Result<(), OutOfMemory>
    requires { env < (world_of board.now).count }
    ensures { OnOk result (out.new.items ≡ out.old.items ++ flat_map spaced (outcome_words before.now ((world_of board.now).solos env))) }
{
    match board.life(env) {
        Life::Dead(_) => push_word(out, Word::Text(b" dead")),
        Life::Live => push_differences(out, before, &board.cpu(env)),
    }
}

/// Makes the second half of a tick, and appends the line of the runner's step.
#[tactic(auto, unfolding(crate::specs::Trace::step_line))]
pub(crate) fn push_step(
    out: &mut Vec<u8>,
    course: &mut Course<'_, '_, '_>,
    env: u8,
) -> Result<(), OutOfMemory>
    requires midway { IsMidway course.old }
    requires there { env < (world_of course.old.board).count }
    requires runs { running (world_of course.old.board).book.runner ≡ Some env }
    ensures text { OnOk result (out.new.items ≡ out.old.items ++ step_line env (world_of course.old.board) (world_of course.new.board)) }
    ensures on { OnOk result (IsOn course.new) }
    ensures time { OnOk result (course.new.board.time ≡ course.old.board.time + 1) }
    ensures system { OnOk result (system_of course.new ≡ system_of course.old) }
{
    let before = course.board.cpu(env);
    let word = next_word(&course.board, env);
    push_head(out, course.board.time(), before.pc, word)?;
    course.finish();
    push_outcome(out, &before, &course.board, env)?;
    end_line(out)
}
