//! Numbers in memory.
ghost use Rattle.std.specs.Prelude.{◌≡◌, ◌++◌, OnOk};
ghost use Rattle.mips_asm.specs.Number.{number_bytes, number_fits};

use crate::field::lies;
use asm_layout::NumberSize;
use byte_numbers::{push_half, push_word};
use std::alloc::AllocError;

/// Whether a value lies in the range of such numbers, with a sign or without.
pub(crate) fn fits(size: NumberSize, value: u32) -> bool
    ensures { result ≡ number_fits size value }
{
    match size {
        NumberSize::Byte => lies(128, 255, value),
        NumberSize::Half => lies(32768, 65535, value),
        NumberSize::Word => true,
    }
}

/// Puts a number at the end, the lowest byte first.
pub(crate) fn push_number(out: &mut Vec<u8>, size: NumberSize, value: u32) -> Result<(), AllocError>
    ensures { OnOk result (out.new.items ≡ out.old.items ++ number_bytes size value) }
{
    match size {
        NumberSize::Byte => out.push((value % (1 << 8)) as u8)?,
        NumberSize::Half => push_half(out, (value % (1 << 16)) as u16)?,
        NumberSize::Word => push_word(out, value)?,
    }
    Ok(())
}
