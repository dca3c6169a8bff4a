//! The texts of the instructions.
ghost use Rattle.std.specs.Prelude.{◌≡◌, ◌<◌, ◌≤◌, IfSome, length, map};
ghost use Rattle.std.specs.List.{find};
ghost use Rattle.std.specs.Option.{option_copied, option_map};
ghost use Rattle.mips_text.specs.Limits.{most_operands, text_word_limit};
ghost use Rattle.mips_text.specs.Seen.{text_row_seen, text_seen};
ghost use Rattle.mips_text.specs.Texts.{rows, instruction_text};
ghost use Rattle.mips_text.specs.WordRows.{row_of, spells};

use crate::shape::{Field, OperandForm, Slot, with_bits};
use line_text::{TableRow, find, table_rows};

/// The text of an instruction: its word with each operand 0, and its operands in the order in which they
/// are written.
#[derive(Clone, Copy)]
pub struct Text {
    /// The word of the instruction whose operands are 0.
    pub word: u32,
    /// Its operands.
    pub operands: &'static [OperandForm],
}

impl Text {
    /// Whether a word is that of this text, with operands in their bits.
    fn spells(&self, word: u32) -> bool
        ensures { result ≡ spells (text_seen self.now) word }
    {
        u64::from(word) == with_bits(self.word, self.operands, word)
    }
}

// The operands by short names.
const RS: OperandForm = OperandForm::Register(Slot::Rs);

const RT: OperandForm = OperandForm::Register(Slot::Rt);

const RD: OperandForm = OperandForm::Register(Slot::Rd);

const AMOUNT: OperandForm = OperandForm::Value(Field::Amount);

const SIGNED: OperandForm = OperandForm::Value(Field::Signed);

const UNSIGNED: OperandForm = OperandForm::Value(Field::Unsigned);

const BRANCH: OperandForm = OperandForm::Value(Field::Branch);

const JUMP: OperandForm = OperandForm::Value(Field::Jump);

const CODE: OperandForm = OperandForm::Optional(Field::Code);

const BASED: OperandForm = OperandForm::Based;

const HALVES: OperandForm = OperandForm::Halves;

/// The rows of texts, each as `name => (word, operands)`.
macro_rules! text_rows {
    ($($name:literal => ($word:literal, $operands:expr)),* $(,)?) => {
        table_rows![$($name => Text { word: $word, operands: &$operands }),*]
    };
}

/// How many rows the further forms have, behind all others.
const FURTHER_ROWS: usize = 5;

/// The instructions by name, and behind them further forms of some.
static TEXTS: [TableRow<Text>; 70] = text_rows![
    b"sll" => (0x0000_0000, [RD, RT, AMOUNT]),
    b"srl" => (0x0000_0002, [RD, RT, AMOUNT]),
    b"sra" => (0x0000_0003, [RD, RT, AMOUNT]),
    b"sllv" => (0x0000_0004, [RD, RT, RS]),
    b"srlv" => (0x0000_0006, [RD, RT, RS]),
    b"srav" => (0x0000_0007, [RD, RT, RS]),
    b"jr" => (0x0000_0008, [RS]),
    b"jalr" => (0x0000_0009, [RD, RS]),
    b"syscall" => (0x0000_000c, [CODE]),
    b"break" => (0x0000_000d, [CODE]),
    b"mfhi" => (0x0000_0010, [RD]),
    b"mflo" => (0x0000_0012, [RD]),
    b"mthi" => (0x0000_0011, [RS]),
    b"mtlo" => (0x0000_0013, [RS]),
    b"mult" => (0x0000_0018, [RS, RT]),
    b"multu" => (0x0000_0019, [RS, RT]),
    b"div" => (0x0000_001a, [RS, RT]),
    b"divu" => (0x0000_001b, [RS, RT]),
    b"add" => (0x0000_0020, [RD, RS, RT]),
    b"sub" => (0x0000_0022, [RD, RS, RT]),
    b"addu" => (0x0000_0021, [RD, RS, RT]),
    b"subu" => (0x0000_0023, [RD, RS, RT]),
    b"and" => (0x0000_0024, [RD, RS, RT]),
    b"or" => (0x0000_0025, [RD, RS, RT]),
    b"xor" => (0x0000_0026, [RD, RS, RT]),
    b"nor" => (0x0000_0027, [RD, RS, RT]),
    b"slt" => (0x0000_002a, [RD, RS, RT]),
    b"sltu" => (0x0000_002b, [RD, RS, RT]),
    b"bltz" => (0x0400_0000, [RS, BRANCH]),
    b"bgez" => (0x0401_0000, [RS, BRANCH]),
    b"bltzal" => (0x0410_0000, [RS, BRANCH]),
    b"bgezal" => (0x0411_0000, [RS, BRANCH]),
    b"j" => (0x0800_0000, [JUMP]),
    b"jal" => (0x0c00_0000, [JUMP]),
    b"beq" => (0x1000_0000, [RS, RT, BRANCH]),
    b"bne" => (0x1400_0000, [RS, RT, BRANCH]),
    b"blez" => (0x1800_0000, [RS, BRANCH]),
    b"bgtz" => (0x1c00_0000, [RS, BRANCH]),
    b"addi" => (0x2000_0000, [RT, RS, SIGNED]),
    b"addiu" => (0x2400_0000, [RT, RS, SIGNED]),
    b"slti" => (0x2800_0000, [RT, RS, SIGNED]),
    b"sltiu" => (0x2c00_0000, [RT, RS, SIGNED]),
    b"andi" => (0x3000_0000, [RT, RS, UNSIGNED]),
    b"ori" => (0x3400_0000, [RT, RS, UNSIGNED]),
    b"xori" => (0x3800_0000, [RT, RS, UNSIGNED]),
    b"lui" => (0x3c00_0000, [RT, UNSIGNED]),
    b"lb" => (0x8000_0000, [RT, BASED]),
    b"lh" => (0x8400_0000, [RT, BASED]),
    b"lbu" => (0x9000_0000, [RT, BASED]),
    b"lhu" => (0x9400_0000, [RT, BASED]),
    b"lw" => (0x8c00_0000, [RT, BASED]),
    b"lwl" => (0x8800_0000, [RT, BASED]),
    b"lwr" => (0x9800_0000, [RT, BASED]),
    b"sb" => (0xa000_0000, [RT, BASED]),
    b"sh" => (0xa400_0000, [RT, BASED]),
    b"sw" => (0xac00_0000, [RT, BASED]),
    b"swl" => (0xa800_0000, [RT, BASED]),
    b"swr" => (0xb800_0000, [RT, BASED]),
    b"mfc0" => (0x4000_0000, [RT, RD]),
    b"mtc0" => (0x4080_0000, [RT, RD]),
    b"tlbr" => (0x4200_0001, []),
    b"tlbwi" => (0x4200_0002, []),
    b"tlbwr" => (0x4200_0006, []),
    b"tlbp" => (0x4200_0008, []),
    b"rfe" => (0x4200_0010, []),
    b"nop" => (0x0000_0000, []),
    b"move" => (0x0000_0021, [RD, RS]),
    b"b" => (0x1000_0000, [BRANCH]),
    b"li" => (0x3c00_0000, [RT, HALVES]),
    b"la" => (0x3c00_0000, [RT, HALVES]),
];

/// The rows of all texts.
#[tactic(auto, unfolding(mips_isa::specs::Encoding::form_of))]
fn texts() -> &'static [TableRow<Text>]
    ensures { map text_row_seen result.now ≡ rows }
{
    &TEXTS
}

/// The text of a name, if an instruction has it.
#[tactic(auto, unfolding(crate::specs::Texts::instruction_text))]
pub fn find_text(name: &[u8]) -> Option<Text>
    ensures value { option_map text_seen result ≡ instruction_text name.now }
    // Its word leaves room for the operands, which are few.
    ensures small { IfSome result (λ text. text.word < text_word_limit) }
    ensures few { IfSome result (λ text. length text.operands.now ≤ most_operands) }
{
    find(texts(), name)
}

/// The first of these rows whose text is that of a word.
fn find_spelled(rows: &[TableRow<Text>], word: u32) -> Option<&TableRow<Text>>
    ensures { option_copied result ≡ find (λ row. spells (text_seen row.meaning) word) rows.now }
{
    rows.iter().find(|row| row.meaning.spells(word))
}

/// The name and the text of the instruction that a word spells. None where it spells one for another
/// coprocessor, or is a reserved word. Further forms, as `nop`, are of no word.
#[tactic(auto, unfolding(crate::specs::WordRows::row_of))]
pub fn find_word(word: u32) -> Option<TableRow<Text>>
    ensures { option_map text_row_seen result ≡ row_of word }
{
    let rows = texts();
    find_spelled(&rows[..rows.len() - FURTHER_ROWS], word).copied()
}
