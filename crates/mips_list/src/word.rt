//! The text of a word.
ghost use Rattle.std.specs.Prelude.{◌≡◌, ◌++◌, OnErr, OnOk};
ghost use Rattle.mips_text.specs.Seen.{text_row_seen};
ghost use Rattle.line_text.specs.Growth.{Keeps};
ghost use Rattle.mips_list.specs.WordText.{data_text, row_text, word_text};

use crate::operand::{push_hexadecimal, push_operands};
use aegis_limits::OutOfMemory;
use line_text::{TableRow, Word, push_word};
use mips_text::{Text, find_word};

/// Appends the text of a word that stands at an address: the instruction that it spells, as the assembler
/// reads it, or `.word` where that has no name (`docs/ASSEMBLER.md`, "Listings"). Where memory runs out
/// the list stays as it was.
pub fn push_word_text(word: u32, address: u32, out: &mut Vec<u8>) -> Result<(), OutOfMemory>
    ensures ok { OnOk result (out.new.items ≡ out.old.items ++ word_text word address) }
    ensures err { OnErr result (out.new.items ≡ out.old.items) }
{
    let before = out.len();
    let pushed = push_text(word, address, out);
    if pushed.is_err() {
        out.truncate(before);
    }
    pushed
}

/// The same, as far as memory reaches.
#[tactic(auto, using(crate::proofs::WordTexts::word_text_by_row), unfolding(crate::specs::WordText::word_text))]
fn push_text(word: u32, address: u32, out: &mut Vec<u8>) -> Result<(), OutOfMemory>
    ensures ok { OnOk result (out.new.items ≡ out.old.items ++ word_text word address) }
    ensures keeps { Keeps out.old.items out.new.items }
{
    match find_word(word) {
        Some(row) => push_row(row, word, address, out),
        None => push_number(word, out),
    }
}

/// Appends an instruction by its row.
fn push_row(
    row: TableRow<Text>,
    word: u32,
    address: u32,
    out: &mut Vec<u8>,
) -> Result<(), OutOfMemory>
    ensures ok { OnOk result (out.new.items ≡ out.old.items ++ row_text (text_row_seen row) word address) }
    ensures keeps { Keeps out.old.items out.new.items }
{
    push_word(out, Word::Text(row.name))?;
    push_operands(row.meaning.operands, word, address, out)
}

/// Appends a word as a number.
fn push_number(word: u32, out: &mut Vec<u8>) -> Result<(), OutOfMemory>
    ensures ok { OnOk result (out.new.items ≡ out.old.items ++ data_text word) }
    ensures keeps { Keeps out.old.items out.new.items }
{
    push_word(out, Word::Text(b".word "))?;
    push_hexadecimal(word, 8, out)
}
