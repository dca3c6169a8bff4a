//! The registers that a report shows of a living environment.
ghost use Rattle.std.specs.Prelude.{◌≡◌, ◌++◌, ◌<◌, OnOk};
ghost use Rattle.run_report.specs.Report.{shown_cpu, cpu_line, regs_line};

use crate::words::env;
use aegis_limits::OutOfMemory;
use line_text::{Word, end_line, push_line, push_spaced, push_word};
use machine_text::{cpu_words, push_register_words};
use mips_exec::Cpu;
use world_model::WorldView;

/// The registers that are shown of an environment: the runner's as they stand, and a stopped one's at
/// rest.
#[tactic(auto, unfolding(crate::specs::Report::shown_cpu))]
pub fn shown_cpu<V: WorldView>(view: &V, env: u8) -> Cpu
    requires { env < (V.world view.now).count }
    ensures { result ≡ shown_cpu (V.world view.now) env }
{
    let cpu = view.cpu(env);
    let runs = view.runner() == Some(env);
    if runs { cpu } else { cpu.rested() }
}

/// Appends the line of the program counters, the slot flag, HI and LO.
#[tactic(auto, unfolding(crate::specs::Report::cpu_line, line_text::specs::WrittenLine::line_of))]
pub(crate) fn push_cpu_line(out: &mut Vec<u8>, who: u8, cpu: &Cpu) -> Result<(), OutOfMemory>
    ensures { OnOk result (out.new.items ≡ out.old.items ++ cpu_line who cpu.now) }
{
    let [pc, next, slot, hi, lo] = cpu_words(cpu);
    push_line(out, b"cpu", &[env(who), pc, next, slot, hi, lo])
}

/// Appends the line of registers 1 to 31.
#[tactic(auto, unfolding(crate::specs::Report::regs_line))]
pub(crate) fn push_regs_line(out: &mut Vec<u8>, who: u8, cpu: &Cpu) -> Result<(), OutOfMemory>
    ensures { OnOk result (out.new.items ≡ out.old.items ++ regs_line who cpu.now) }
{
    push_word(out, Word::Text(b"regs"))?;
    push_spaced(out, env(who))?;
    push_register_words(out, cpu)?;
    end_line(out)
}
