//! The instruction of each word, and the word of each instruction.
ghost use Rattle.std.specs.Prelude.{IfNone, IfSome, ℕ, ◌<◌, ◌≡◌, ◌^◌};
ghost use Rattle.std.specs.Option.{SomeIff};
ghost use Rattle.mips_isa.specs.declared.insn.Insn.TheVariants.{Reserved};
ghost use Rattle.mips_isa.specs.Encoding.{CodedFits, CoprocessorFits, ImmediateFits, IsEncodable, JumpFits, RegisterFits, Spells, coded_word, immediate_word, insn_of, jump_word, regimm_of, register_word, special_of, system_of, system_operation_of, word_of};

use crate::fields::{
    COP0, COP0_OPERATION, REGIMM, SPECIAL, code, function, imm, opcode, rd, rs, rt, sh, target,
};
use mips_isa::Insn;

/// Register numbers and shift amounts are below this.
const REGISTER_LIMIT: u8 = 32;

/// Codes of SYSCALL and BREAK are below this.
pub const CODE_LIMIT: u32 = 1 << 20;

/// Targets of jumps are below this.
const TARGET_LIMIT: u32 = 1 << 26;

/// The instruction of a word of opcode 0, by its function.
#[tactic(auto, unfolding(mips_isa::specs::Encoding::special_of))]
fn special(word: u32) -> Insn
    ensures { result ≡ special_of word }
{
    let (rs, rt, rd, sh) = (rs(word), rt(word), rd(word), sh(word));
    match function(word) {
        0 if rs == 0 => Insn::Sll { rd, rt, sh },
        2 if rs == 0 => Insn::Srl { rd, rt, sh },
        3 if rs == 0 => Insn::Sra { rd, rt, sh },
        4 if sh == 0 => Insn::Sllv { rd, rt, rs },
        6 if sh == 0 => Insn::Srlv { rd, rt, rs },
        7 if sh == 0 => Insn::Srav { rd, rt, rs },
        8 if rt == 0 && rd == 0 && sh == 0 => Insn::Jr { rs },
        9 if rt == 0 && sh == 0 => Insn::Jalr { rd, rs },
        12 => Insn::Syscall { code: code(word) },
        13 => Insn::Break { code: code(word) },
        16 if rs == 0 && rt == 0 && sh == 0 => Insn::Mfhi { rd },
        17 if rt == 0 && rd == 0 && sh == 0 => Insn::Mthi { rs },
        18 if rs == 0 && rt == 0 && sh == 0 => Insn::Mflo { rd },
        19 if rt == 0 && rd == 0 && sh == 0 => Insn::Mtlo { rs },
        24 if rd == 0 && sh == 0 => Insn::Mult { rs, rt },
        25 if rd == 0 && sh == 0 => Insn::Multu { rs, rt },
        26 if rd == 0 && sh == 0 => Insn::Div { rs, rt },
        27 if rd == 0 && sh == 0 => Insn::Divu { rs, rt },
        32 if sh == 0 => Insn::Add { rd, rs, rt },
        33 if sh == 0 => Insn::Addu { rd, rs, rt },
        34 if sh == 0 => Insn::Sub { rd, rs, rt },
        35 if sh == 0 => Insn::Subu { rd, rs, rt },
        36 if sh == 0 => Insn::And { rd, rs, rt },
        37 if sh == 0 => Insn::Or { rd, rs, rt },
        38 if sh == 0 => Insn::Xor { rd, rs, rt },
        39 if sh == 0 => Insn::Nor { rd, rs, rt },
        42 if sh == 0 => Insn::Slt { rd, rs, rt },
        43 if sh == 0 => Insn::Sltu { rd, rs, rt },
        _ => Insn::Reserved(word),
    }
}

/// The instruction of a word of opcode 1, by its field `rt`.
#[tactic(auto, unfolding(mips_isa::specs::Encoding::regimm_of))]
fn regimm(word: u32) -> Insn
    ensures { result ≡ regimm_of word }
{
    let (rs, imm) = (rs(word), imm(word));
    match rt(word) {
        0 => Insn::Bltz { rs, imm },
        1 => Insn::Bgez { rs, imm },
        16 => Insn::Bltzal { rs, imm },
        17 => Insn::Bgezal { rs, imm },
        _ => Insn::Reserved(word),
    }
}

/// The instruction of a word of opcode 16 whose field `rs` is 16, by bits 20:0.
#[tactic(auto, unfolding(mips_isa::specs::Encoding::system_operation_of))]
fn system_operation(word: u32) -> Insn
    ensures { result ≡ system_operation_of word }
{
    match word & 0x1f_ffff {
        1 => Insn::Tlbr,
        2 => Insn::Tlbwi,
        6 => Insn::Tlbwr,
        8 => Insn::Tlbp,
        16 => Insn::Rfe,
        _ => Insn::Reserved(word),
    }
}

/// The instruction of a word of opcode 16, by its field `rs`.
#[tactic(auto, unfolding(mips_isa::specs::Encoding::system_of))]
fn system(word: u32) -> Insn
    ensures { result ≡ system_of word }
{
    let (rt, rd) = (rt(word), rd(word));
    let rest = word & 0x7ff;
    match rs(word) {
        0 if rest == 0 => Insn::Mfc0 { rt, rd },
        4 if rest == 0 => Insn::Mtc0 { rt, rd },
        COP0_OPERATION => system_operation(word),
        _ => Insn::Reserved(word),
    }
}

/// The instruction of a word, by its opcode.
#[tactic(auto, unfolding(mips_isa::specs::Encoding::insn_of))]
fn instruction(word: u32) -> Insn
    ensures { result ≡ insn_of word }
{
    let (op, rs, rt, imm) = (opcode(word), rs(word), rt(word), imm(word));
    match op {
        SPECIAL => special(word),
        REGIMM => regimm(word),
        2 => Insn::J {
            target: target(word),
        },
        3 => Insn::Jal {
            target: target(word),
        },
        4 => Insn::Beq { rs, rt, imm },
        5 => Insn::Bne { rs, rt, imm },
        6 if rt == 0 => Insn::Blez { rs, imm },
        7 if rt == 0 => Insn::Bgtz { rs, imm },
        8 => Insn::Addi { rt, rs, imm },
        9 => Insn::Addiu { rt, rs, imm },
        10 => Insn::Slti { rt, rs, imm },
        11 => Insn::Sltiu { rt, rs, imm },
        12 => Insn::Andi { rt, rs, imm },
        13 => Insn::Ori { rt, rs, imm },
        14 => Insn::Xori { rt, rs, imm },
        15 if rs == 0 => Insn::Lui { rt, imm },
        COP0 => system(word),
        17..=19 | 49..=51 | 57..=59 => Insn::Cop {
            op,
            rest: target(word),
        },
        32 => Insn::Lb { rt, imm, rs },
        33 => Insn::Lh { rt, imm, rs },
        34 => Insn::Lwl { rt, imm, rs },
        35 => Insn::Lw { rt, imm, rs },
        36 => Insn::Lbu { rt, imm, rs },
        37 => Insn::Lhu { rt, imm, rs },
        38 => Insn::Lwr { rt, imm, rs },
        40 => Insn::Sb { rt, imm, rs },
        41 => Insn::Sh { rt, imm, rs },
        42 => Insn::Swl { rt, imm, rs },
        43 => Insn::Sw { rt, imm, rs },
        46 => Insn::Swr { rt, imm, rs },
        _ => Insn::Reserved(word),
    }
}

/// The instruction that a word spells: one for every word, `Reserved` where the table has no other
/// (`docs/MACHINE.md`, "Encoding").
pub fn decode(word: u32) -> Insn
    ensures spells { Spells word result }
    ensures value { result ≡ insn_of word }
{
    instruction(word)
}

/// The word of the register form with these fields, if each is in its range.
fn register_form(op: u8, rs: u8, rt: u8, rd: u8, sh: u8, function: u8) -> Option<u32>
    requires opcode { op < 2 ^ 6 }
    requires function { function < 2 ^ 6 }
    ensures { SomeIff result (RegisterFits op rs rt rd sh function) (register_word op rs rt rd sh function) }
{
    let fits = rs < REGISTER_LIMIT
        && rt < REGISTER_LIMIT
        && rd < REGISTER_LIMIT
        && sh < REGISTER_LIMIT;
    if fits {
        let registers = (u32::from(rs) << 21) + (u32::from(rt) << 16) + (u32::from(rd) << 11);
        Some((u32::from(op) << 26) + registers + (u32::from(sh) << 6) + u32::from(function))
    } else {
        None
    }
}

/// The word of opcode 0 with this code and function, if the code is in its range.
fn coded_form(code: u32, function: u8) -> Option<u32>
    requires { function < 2 ^ 6 }
    ensures { SomeIff result (CodedFits code function) (coded_word code function) }
{
    if code < CODE_LIMIT {
        Some((code << 6) + u32::from(function))
    } else {
        None
    }
}

/// The word of the immediate form with these fields, if each is in its range.
fn immediate_form(op: u8, rs: u8, rt: u8, imm: u16) -> Option<u32>
    requires { op < 2 ^ 6 }
    ensures { SomeIff result (ImmediateFits op rs rt imm) (immediate_word op rs rt imm) }
{
    if rs < REGISTER_LIMIT && rt < REGISTER_LIMIT {
        let registers = (u32::from(rs) << 21) + (u32::from(rt) << 16);
        Some((u32::from(op) << 26) + registers + u32::from(imm))
    } else {
        None
    }
}

/// The word of the jump form with these fields, if the target is in its range.
fn jump_form(op: u8, target: u32) -> Option<u32>
    requires { op < 2 ^ 6 }
    ensures { SomeIff result (JumpFits op target) (jump_word op target) }
{
    if target < TARGET_LIMIT {
        Some((u32::from(op) << 26) + target)
    } else {
        None
    }
}

/// The word of a coprocessor's opcode and 26 bits, if each is in its range.
fn coprocessor_form(op: u8, rest: u32) -> Option<u32>
    ensures { SomeIff result (CoprocessorFits op rest) (jump_word op rest) }
{
    match op {
        17..=19 | 49..=51 | 57..=59 => jump_form(op, rest),
        _ => None,
    }
}

/// The word itself, if it spells no other instruction.
fn reserved(word: u32) -> Option<u32>
    ensures { SomeIff result (IsEncodable (Reserved word)) word }
{
    match decode(word) {
        Insn::Reserved(_) => Some(word),
        _ => None,
    }
}

/// The word of an instruction by the table of the encoding, if its fields fit.
#[tactic(auto, unfolding(mips_isa::specs::Encoding::form_of))]
fn word(insn: &Insn) -> Option<u32>
    ensures { SomeIff result (IsEncodable insn.now) (word_of insn.now) }
{
    match *insn {
        Insn::Sll { rd, rt, sh } => register_form(SPECIAL, 0, rt, rd, sh, 0),
        Insn::Srl { rd, rt, sh } => register_form(SPECIAL, 0, rt, rd, sh, 2),
        Insn::Sra { rd, rt, sh } => register_form(SPECIAL, 0, rt, rd, sh, 3),
        Insn::Sllv { rd, rt, rs } => register_form(SPECIAL, rs, rt, rd, 0, 4),
        Insn::Srlv { rd, rt, rs } => register_form(SPECIAL, rs, rt, rd, 0, 6),
        Insn::Srav { rd, rt, rs } => register_form(SPECIAL, rs, rt, rd, 0, 7),
        Insn::Jr { rs } => register_form(SPECIAL, rs, 0, 0, 0, 8),
        Insn::Jalr { rd, rs } => register_form(SPECIAL, rs, 0, rd, 0, 9),
        Insn::Syscall { code } => coded_form(code, 12),
        Insn::Break { code } => coded_form(code, 13),
        Insn::Mfhi { rd } => register_form(SPECIAL, 0, 0, rd, 0, 16),
        Insn::Mthi { rs } => register_form(SPECIAL, rs, 0, 0, 0, 17),
        Insn::Mflo { rd } => register_form(SPECIAL, 0, 0, rd, 0, 18),
        Insn::Mtlo { rs } => register_form(SPECIAL, rs, 0, 0, 0, 19),
        Insn::Mult { rs, rt } => register_form(SPECIAL, rs, rt, 0, 0, 24),
        Insn::Multu { rs, rt } => register_form(SPECIAL, rs, rt, 0, 0, 25),
        Insn::Div { rs, rt } => register_form(SPECIAL, rs, rt, 0, 0, 26),
        Insn::Divu { rs, rt } => register_form(SPECIAL, rs, rt, 0, 0, 27),
        Insn::Add { rd, rs, rt } => register_form(SPECIAL, rs, rt, rd, 0, 32),
        Insn::Addu { rd, rs, rt } => register_form(SPECIAL, rs, rt, rd, 0, 33),
        Insn::Sub { rd, rs, rt } => register_form(SPECIAL, rs, rt, rd, 0, 34),
        Insn::Subu { rd, rs, rt } => register_form(SPECIAL, rs, rt, rd, 0, 35),
        Insn::And { rd, rs, rt } => register_form(SPECIAL, rs, rt, rd, 0, 36),
        Insn::Or { rd, rs, rt } => register_form(SPECIAL, rs, rt, rd, 0, 37),
        Insn::Xor { rd, rs, rt } => register_form(SPECIAL, rs, rt, rd, 0, 38),
        Insn::Nor { rd, rs, rt } => register_form(SPECIAL, rs, rt, rd, 0, 39),
        Insn::Slt { rd, rs, rt } => register_form(SPECIAL, rs, rt, rd, 0, 42),
        Insn::Sltu { rd, rs, rt } => register_form(SPECIAL, rs, rt, rd, 0, 43),
        Insn::Bltz { rs, imm } => immediate_form(REGIMM, rs, 0, imm),
        Insn::Bgez { rs, imm } => immediate_form(REGIMM, rs, 1, imm),
        Insn::Bltzal { rs, imm } => immediate_form(REGIMM, rs, 16, imm),
        Insn::Bgezal { rs, imm } => immediate_form(REGIMM, rs, 17, imm),
        Insn::J { target } => jump_form(2, target),
        Insn::Jal { target } => jump_form(3, target),
        Insn::Beq { rs, rt, imm } => immediate_form(4, rs, rt, imm),
        Insn::Bne { rs, rt, imm } => immediate_form(5, rs, rt, imm),
        Insn::Blez { rs, imm } => immediate_form(6, rs, 0, imm),
        Insn::Bgtz { rs, imm } => immediate_form(7, rs, 0, imm),
        Insn::Addi { rt, rs, imm } => immediate_form(8, rs, rt, imm),
        Insn::Addiu { rt, rs, imm } => immediate_form(9, rs, rt, imm),
        Insn::Slti { rt, rs, imm } => immediate_form(10, rs, rt, imm),
        Insn::Sltiu { rt, rs, imm } => immediate_form(11, rs, rt, imm),
        Insn::Andi { rt, rs, imm } => immediate_form(12, rs, rt, imm),
        Insn::Ori { rt, rs, imm } => immediate_form(13, rs, rt, imm),
        Insn::Xori { rt, rs, imm } => immediate_form(14, rs, rt, imm),
        Insn::Lui { rt, imm } => immediate_form(15, 0, rt, imm),
        Insn::Lb { rt, imm, rs } => immediate_form(32, rs, rt, imm),
        Insn::Lh { rt, imm, rs } => immediate_form(33, rs, rt, imm),
        Insn::Lwl { rt, imm, rs } => immediate_form(34, rs, rt, imm),
        Insn::Lw { rt, imm, rs } => immediate_form(35, rs, rt, imm),
        Insn::Lbu { rt, imm, rs } => immediate_form(36, rs, rt, imm),
        Insn::Lhu { rt, imm, rs } => immediate_form(37, rs, rt, imm),
        Insn::Lwr { rt, imm, rs } => immediate_form(38, rs, rt, imm),
        Insn::Sb { rt, imm, rs } => immediate_form(40, rs, rt, imm),
        Insn::Sh { rt, imm, rs } => immediate_form(41, rs, rt, imm),
        Insn::Swl { rt, imm, rs } => immediate_form(42, rs, rt, imm),
        Insn::Sw { rt, imm, rs } => immediate_form(43, rs, rt, imm),
        Insn::Swr { rt, imm, rs } => immediate_form(46, rs, rt, imm),
        Insn::Mfc0 { rt, rd } => register_form(COP0, 0, rt, rd, 0, 0),
        Insn::Mtc0 { rt, rd } => register_form(COP0, 4, rt, rd, 0, 0),
        Insn::Tlbr => register_form(COP0, COP0_OPERATION, 0, 0, 0, 1),
        Insn::Tlbwi => register_form(COP0, COP0_OPERATION, 0, 0, 0, 2),
        Insn::Tlbwr => register_form(COP0, COP0_OPERATION, 0, 0, 0, 6),
        Insn::Tlbp => register_form(COP0, COP0_OPERATION, 0, 0, 0, 8),
        Insn::Rfe => register_form(COP0, COP0_OPERATION, 0, 0, 0, 16),
        Insn::Cop { op, rest } => coprocessor_form(op, rest),
        Insn::Reserved(word) => reserved(word),
    }
}

/// The word that spells an instruction. `None` where a field is out of its range, where `Cop` has an
/// opcode of no coprocessor, or where a `Reserved` word spells another instruction
/// (`docs/MACHINE.md`, "Encoding").
pub fn encode(insn: &Insn) -> Option<u32>
    ensures value { SomeIff result (IsEncodable insn.now) (word_of insn.now) }
    ensures spells { IfSome result (λ word. Spells word insn.now) }
    ensures unspelled { IfNone result ((word : ℕ) → ¬ Spells word insn.now) }

    // decoding the word gives the instruction back, and each word is the encoding of what it decodes to
    ensures reads_back { IfSome result (λ word. insn_of word ≡ insn.now) }
    ensures inverse { (word : ℕ) → insn.now ≡ insn_of word → result ≡ Some word }
{
    word(insn)
}
