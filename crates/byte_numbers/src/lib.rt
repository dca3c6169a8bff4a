//! Numbers in bytes, each of them the lowest byte first. Every reader and writer of a format whose
//! numbers stand so reads and writes them by these.
#![tactic(auto)]

ghost use Rattle.std.specs.Prelude.{◌≡◌, ◌≢◌, ◌+◌, ◌<◌, ◌≤◌, ◌++◌, length, OnErr, OnOk};
ghost use Rattle.byteorder.specs.Endian.{little_number};
ghost use Rattle.std.specs.Int.{to_le_bytes, w16, w32};
ghost use Rattle.byte_numbers.specs.Numbers.{half_at, word_at};

use byteorder::{ByteOrder, LittleEndian};
use std::alloc::AllocError;

/// The number in the two bytes from `place` on.
#[tactic(auto, unfolding(crate::specs::Numbers::half_at))]
pub fn half_at(bytes: &[u8], place: usize) -> u16
    requires { place + 2 ≤ length bytes.now }
    ensures { result ≡ half_at bytes.now place }
{
    LittleEndian::read_u16(&bytes[place..])
}

/// The number in the four bytes from `place` on.
#[tactic(auto, unfolding(crate::specs::Numbers::word_at))]
pub fn word_at(bytes: &[u8], place: usize) -> u32
    requires { place + 4 ≤ length bytes.now }
    ensures { result ≡ word_at bytes.now place }
{
    LittleEndian::read_u32(&bytes[place..])
}

/// The number in the first `width` bytes, which are 1, 2 or 4.
#[inline(always)]
pub fn number_at(bytes: &[u8], width: u8) -> u32
    requires some { 0 < width }
    requires whole { width ≢ 3 }
    requires within { width ≤ length bytes.now }
    requires word { width ≤ 4 }
    ensures { result ≡ little_number width bytes.now }
{
    match width {
        1 => u32::from(bytes[0]),
        2 => u32::from(LittleEndian::read_u16(bytes)),
        _ => LittleEndian::read_u32(bytes),
    }
}

/// Puts a number at the end, in two bytes.
pub fn push_half(out: &mut Vec<u8>, number: u16) -> Result<(), AllocError>
    ensures ok { OnOk result (out.new.items ≡ out.old.items ++ to_le_bytes w16 number) }
    ensures err { OnErr result (out.new.items ≡ out.old.items) }
{
    let mut bytes = [0; 2];
    LittleEndian::write_u16(&mut bytes, number);
    out.extend_from_slice(&bytes)
}

/// Puts a number at the end, in four bytes.
pub fn push_word(out: &mut Vec<u8>, number: u32) -> Result<(), AllocError>
    ensures ok { OnOk result (out.new.items ≡ out.old.items ++ to_le_bytes w32 number) }
    ensures err { OnErr result (out.new.items ≡ out.old.items) }
{
    let mut bytes = [0; 4];
    LittleEndian::write_u32(&mut bytes, number);
    out.extend_from_slice(&bytes)
}
