//! The rows of a TLB, a line each.
ghost use Rattle.std.specs.Prelude.{◌≡◌, ◌++◌, OnOk};
ghost use Rattle.r3k_tlb.specs.Rows.{row_count};
ghost use Rattle.machine_text.specs.RowLines.{tlb_row_line, tlb_row_lines};

use aegis_limits::OutOfMemory;
use line_text::{Word, push_line};
use r3k_tlb::{ROW_COUNT, Row, Tlb};

/// Appends the line of a row.
#[tactic(auto, unfolding(crate::specs::RowLines::tlb_row_line, line_text::specs::WrittenLine::line_of))]
fn push_row_line(out: &mut Vec<u8>, i: u8, row: Row) -> Result<(), OutOfMemory>
    ensures { OnOk result (out.new.items ≡ out.old.items ++ tlb_row_line i row) }
{
    let words = [
        Word::Number(u64::from(i)),
        Word::Hexadecimal(row.hi),
        Word::Hexadecimal(row.lo),
    ];
    push_line(out, b"row", &words)
}

/// Appends the lines of all rows.
#[tactic(auto, using(std::proofs::lemmas::Grind::common_steps, crate::proofs::Series::for_each_more))]
pub fn push_row_lines(out: &mut Vec<u8>, tlb: &Tlb) -> Result<(), OutOfMemory>
    ensures { OnOk result (out.new.items ≡ out.old.items ++ tlb_row_lines tlb.now row_count) }
{
    for i in 0..ROW_COUNT as u8 {
        push_row_line(out, i, tlb.read(i))?;
    }
    Ok(())
}
