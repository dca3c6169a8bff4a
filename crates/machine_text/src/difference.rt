//! The registers that differ between two moments, as words of a line.
ghost use Rattle.std.specs.Prelude.{◌≡◌, ◌++◌, ◌<◌, OnOk};
ghost use Rattle.std.specs.List.{flat_map};
ghost use Rattle.line_text.specs.WrittenLine.{spaced};
ghost use Rattle.machine_text.specs.Differences.{difference, differences, register_difference, register_differences};

use crate::registers::SHOWN_REGISTERS;
use aegis_limits::OutOfMemory;
use line_text::{Word, push_spaced, push_word};
use mips_exec::Cpu;

/// Appends what a register of this name holds, if it differs.
fn push_difference(
    out: &mut Vec<u8>,
    name: &[u8],
    before: u32,
    after: u32,
) -> Result<(), OutOfMemory>
    ensures { OnOk result (out.new.items ≡ out.old.items ++ flat_map spaced (difference name.now before after)) }
{
    if before == after {
        return Ok(());
    }
    push_spaced(out, Word::Text(name))?;
    push_spaced(out, Word::Hexadecimal(after))
}

/// Appends what the register after a place holds, if it differs.
fn push_register(out: &mut Vec<u8>, before: &Cpu, after: &Cpu, place: u8) -> Result<(), OutOfMemory>
    requires { place < 31 }
    ensures { OnOk result (out.new.items ≡ out.old.items ++ flat_map spaced (register_difference before.now after.now place)) }
{
    let register = place + 1;
    let value = after.reg(register);
    if before.reg(register) == value {
        return Ok(());
    }
    push_word(out, Word::Text(b" $"))?;
    push_word(out, Word::Number(u64::from(register)))?;
    push_spaced(out, Word::Hexadecimal(value))
}

/// Appends registers 1 to 31, where they differ.
#[tactic(auto, using(std::proofs::lemmas::Grind::common_steps, crate::proofs::Series::more_words), unfolding(crate::specs::Differences::register_differences))]
fn push_registers(out: &mut Vec<u8>, before: &Cpu, after: &Cpu) -> Result<(), OutOfMemory>
    ensures { OnOk result (out.new.items ≡ out.old.items ++ flat_map spaced (register_differences before.now after.now)) }
{
    for place in 0..SHOWN_REGISTERS {
        push_register(out, before, after, place)?;
    }
    Ok(())
}

/// Appends registers 1 to 31, HI and LO, where they differ: the name of each, and what it holds afterwards.
#[tactic(auto, using(crate::proofs::Series::three_parts), unfolding(crate::specs::Differences::differences))]
pub fn push_differences(out: &mut Vec<u8>, before: &Cpu, after: &Cpu) -> Result<(), OutOfMemory>
    ensures { OnOk result (out.new.items ≡ out.old.items ++ flat_map spaced (differences before.now after.now)) }
{
    push_registers(out, before, after)?;
    push_difference(out, b"hi", before.hi, after.hi)?;
    push_difference(out, b"lo", before.lo, after.lo)
}
