//! The answer to a kernel call.
ghost use Rattle.std.specs.Prelude.{◌≡◌};
ghost use Rattle.world_model.specs.Item.{answered_cpu};

use mips_exec::Cpu;
use world_model::{CODE_REGISTER, VALUE_REGISTER, Verdict};

/// A call's caller finds the answer, and goes on behind the call.
pub fn answer(cpu: &mut Cpu, verdict: Verdict)
    ensures { cpu.new ≡ answered_cpu verdict cpu.old }
{
    cpu.set_reg(CODE_REGISTER, verdict.code());
    cpu.set_reg(VALUE_REGISTER, verdict.value());
    cpu.pc = cpu.pc.wrapping_add(4);
    cpu.next = cpu.next.wrapping_add(4);
}
