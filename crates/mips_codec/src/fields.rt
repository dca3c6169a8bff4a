//! The fields of a word.
ghost use Rattle.std.specs.Prelude.{◌≡◌};
ghost use Rattle.mips_isa.specs.Fields.{code_of, function_of, imm_of, opcode_of, rd_of, rs_of, rt_of, sh_of, target_of};

/// The opcode whose words are told apart by their function.
pub const SPECIAL: u8 = 0;

/// The opcode whose words are told apart by their field `rt`.
pub const REGIMM: u8 = 1;

/// The opcode of coprocessor 0, whose words are told apart by their field `rs`.
pub const COP0: u8 = 16;

/// The field `rs` of the operations of coprocessor 0 without operands, told apart by bits 20:0.
pub const COP0_OPERATION: u8 = 16;

/// Bits 31:26.
pub fn opcode(word: u32) -> u8
    ensures { result ≡ opcode_of word }
{
    (word >> 26) as u8
}

/// Bits 25:21.
pub fn rs(word: u32) -> u8
    ensures { result ≡ rs_of word }
{
    (word >> 21 & 0x1f) as u8
}

/// Bits 20:16.
pub fn rt(word: u32) -> u8
    ensures { result ≡ rt_of word }
{
    (word >> 16 & 0x1f) as u8
}

/// Bits 15:11.
pub fn rd(word: u32) -> u8
    ensures { result ≡ rd_of word }
{
    (word >> 11 & 0x1f) as u8
}

/// Bits 10:6.
pub fn sh(word: u32) -> u8
    ensures { result ≡ sh_of word }
{
    (word >> 6 & 0x1f) as u8
}

/// Bits 5:0.
pub fn function(word: u32) -> u8
    ensures { result ≡ function_of word }
{
    (word & 0x3f) as u8
}

/// Bits 25:6.
pub fn code(word: u32) -> u32
    ensures { result ≡ code_of word }
{
    word >> 6 & 0xf_ffff
}

/// Bits 15:0.
pub fn imm(word: u32) -> u16
    ensures { result ≡ imm_of word }
{
    (word & 0xffff) as u16
}

/// Bits 25:0.
pub fn target(word: u32) -> u32
    ensures { result ≡ target_of word }
{
    word & 0x3ff_ffff
}
