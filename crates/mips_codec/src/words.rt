//! What is made of halves and bytes of words.
ghost use Rattle.std.specs.Prelude.{◌≡◌, ◌<◌};
ghost use Rattle.std.specs.Int.{from_le_bytes, to_le_bytes, w32};
ghost use Rattle.mips_isa.specs.Word.{merged_left, merged_right, sign16_of, stored_left, stored_right};

use byteorder::{ByteOrder, LittleEndian};

/// A half word as a word with its sign: bits 31:16 are copies of bit 15 (`docs/MACHINE.md`, "Halves and
/// merges").
pub fn sign16(half: u16) -> u32
    ensures { result ≡ sign16_of half }
{
    i32::from(half.cast_signed()).cast_unsigned()
}

/// The register after LWL, where it was `value`: the `n + 1` low bytes of the word in memory
/// become its high bytes (`docs/MACHINE.md`, "Halves and merges").
pub fn merge_left(word: u32, value: u32, n: u32) -> u32
    requires { n < 4 }
    ensures { result ≡ merged_left word value n }
{
    match n {
        0 => (word << 24) + (value & 0x00ff_ffff),
        1 => (word << 16) + (value & 0xffff),
        2 => (word << 8) + (value & 0xff),
        _ => word,
    }
}

/// The register after LWR, where it was `value`: the `4 - n` high bytes of the word in memory
/// become its low bytes (`docs/MACHINE.md`, "Halves and merges").
pub fn merge_right(word: u32, value: u32, n: u32) -> u32
    requires { n < 4 }
    ensures { result ≡ merged_right word value n }
{
    match n {
        0 => word,
        1 => (value >> 24 << 24) + (word >> 8),
        2 => (value >> 16 << 16) + (word >> 16),
        _ => (value >> 8 << 8) + (word >> 24),
    }
}

/// The word in memory after SWL, where it was `word`: the `n + 1` high bytes of the register
/// become its low bytes (`docs/MACHINE.md`, "Halves and merges").
pub fn store_left(word: u32, value: u32, n: u32) -> u32
    requires { n < 4 }
    ensures { result ≡ stored_left word value n }
{
    match n {
        0 => (word >> 8 << 8) + (value >> 24),
        1 => (word >> 16 << 16) + (value >> 16),
        2 => (word >> 24 << 24) + (value >> 8),
        _ => value,
    }
}

/// The word in memory after SWR, where it was `word`: the `4 - n` low bytes of the register
/// become its high bytes (`docs/MACHINE.md`, "Halves and merges").
pub fn store_right(word: u32, value: u32, n: u32) -> u32
    requires { n < 4 }
    ensures { result ≡ stored_right word value n }
{
    match n {
        0 => value,
        1 => (value << 8) + (word & 0xff),
        2 => (value << 16) + (word & 0xffff),
        _ => (value << 24) + (word & 0x00ff_ffff),
    }
}

/// The word of four bytes, the lowest first.
pub fn le_word(bytes: [u8; 4]) -> u32
    ensures { result ≡ from_le_bytes w32 bytes }
{
    LittleEndian::read_u32(&bytes)
}

/// The four bytes of a word, the lowest first.
pub fn le_bytes(word: u32) -> [u8; 4]
    ensures { result ≡ to_le_bytes w32 word }
{
    let mut bytes = [0; 4];
    LittleEndian::write_u32(&mut bytes, word);
    bytes
}
