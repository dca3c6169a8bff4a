//! The registers of a processor, as words of a line.
ghost use Rattle.std.specs.Prelude.{◌≡◌, ◌++◌, ◌∷◌, [], OnOk};
ghost use Rattle.std.specs.List.{flat_map};
ghost use Rattle.line_text.specs.WrittenLine.{spaced};
ghost use Rattle.line_text.specs.declared.line_writing.Word.TheVariants.{Flag, Hexadecimal};
ghost use Rattle.machine_text.specs.Registers.{register_words};

use aegis_limits::OutOfMemory;
use line_text::{Word, push_spaced};
use mips_exec::Cpu;

/// The registers after register 0.
pub(crate) const SHOWN_REGISTERS: u8 = 31;

/// The program counters, the slot flag, HI and LO.
pub fn cpu_words(cpu: &Cpu) -> [Word<'static>; 5]
    ensures { let c = cpu.now in result ≡ Hexadecimal c.pc ∷ Hexadecimal c.next ∷ Flag c.slot ∷ Hexadecimal c.hi ∷ Hexadecimal c.lo ∷ [] }
{
    [
        Word::Hexadecimal(cpu.pc),
        Word::Hexadecimal(cpu.next),
        Word::Flag(cpu.slot),
        Word::Hexadecimal(cpu.hi),
        Word::Hexadecimal(cpu.lo),
    ]
}

/// Appends registers 1 to 31, each after a space.
#[tactic(auto, using(std::proofs::lemmas::Grind::common_steps, crate::proofs::Series::more_words), unfolding(crate::specs::Registers::register_words))]
pub fn push_register_words(out: &mut Vec<u8>, cpu: &Cpu) -> Result<(), OutOfMemory>
    ensures { OnOk result (out.new.items ≡ out.old.items ++ flat_map spaced (register_words cpu.now)) }
{
    for place in 0..SHOWN_REGISTERS {
        push_spaced(out, Word::Hexadecimal(cpu.reg(place + 1)))?;
    }
    Ok(())
}
