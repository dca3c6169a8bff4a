//! The text of the TLB, line by line.
ghost use Rattle.std.specs.Prelude.{◌≡◌, ◌++◌, length, OnOk, IfOk};
ghost use Rattle.board_model.specs.Showing.{world_of};
ghost use Rattle.tlb_report.specs.Text.{fill_line, fill_lines, random_line, tlb_text};

use aegis_calls::Board;
use aegis_limits::OutOfMemory;
use kernel_journal::RunEnd;
use line_text::{Word, push_line, push_word};
use machine_text::push_row_lines;
use run_report::push_end_line;
use std::alloc::Global;
use tlb_model::Fills;
use world_model::WorldView;

/// Appends the line of an environment's fills.
#[tactic(auto, unfolding(crate::specs::Text::fill_line, line_text::specs::WrittenLine::line_of))]
fn push_fill_line(out: &mut Vec<u8>, env: u8, fills: Fills) -> Result<(), OutOfMemory>
    ensures { OnOk result (out.new.items ≡ out.old.items ++ fill_line env fills) }
{
    let words = [
        Word::Number(u64::from(env)),
        Word::Number(u64::from(fills.guaranteed)),
        Word::Number(u64::from(fills.stripe)),
        Word::Number(u64::from(fills.forwarded)),
    ];
    push_line(out, b"fill", &words)
}

/// Appends the lines of the fills of each environment.
#[tactic(auto, using(std::proofs::lemmas::Grind::common_steps, machine_text::proofs::Series::for_each_more))]
fn push_fill_lines(out: &mut Vec<u8>, board: &Board) -> Result<(), OutOfMemory>
    ensures { OnOk result (out.new.items ≡ out.old.items ++ fill_lines board.now.tlb.fills (world_of board.now).count) }
{
    for env in 0..board.envs() {
        push_fill_line(out, env, board.fills(env))?;
    }
    Ok(())
}

/// Appends the line of the row that the next refill takes.
#[tactic(auto, unfolding(crate::specs::Text::random_line, line_text::specs::WrittenLine::line_of))]
fn push_random_line(out: &mut Vec<u8>, random: u8) -> Result<(), OutOfMemory>
    ensures { OnOk result (out.new.items ≡ out.old.items ++ random_line random) }
{
    push_line(out, b"random", &[Word::Number(u64::from(random))])
}

/// The TLB of a board whose run ended in this way (`docs/REPORT.md`): the refills of each environment, Random, and the
/// rows.
#[tactic(auto, unfolding(crate::specs::Text::tlb_text))]
pub fn tlb_text(alloc: Global, board: &Board, end: RunEnd) -> Result<Vec<u8>, OutOfMemory>
    ensures { IfOk result (λ text. text.items ≡ tlb_text (world_of board.now) board.now.tlb end) }
{
    let mut out = Vec::new(alloc);
    push_word(&mut out, Word::Text(b"aegis tlb\n"))?;
    push_end_line(&mut out, board, end)?;
    push_fill_lines(&mut out, board)?;
    push_random_line(&mut out, board.random())?;
    push_row_lines(&mut out, board.tlb())?;
    push_word(&mut out, Word::Text(b"done\n"))?;
    Ok(out)
}
