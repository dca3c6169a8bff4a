//! The notes of a core.
ghost use Rattle.std.specs.Prelude.{◌≡◌, ◌<◌, ◌++◌, OnOk};
ghost use Rattle.core_file.specs.Notes.{aegis_note, core_note, handler_words, kernel_text, notes_text, phase_number, place_words, register_text, running_words, status_text};
ghost use Rattle.elf_static.specs.Layout.{words};
ghost use Rattle.run_report.specs.Report.{shown_cpu};

use aegis_limits::OutOfMemory;
use elf_static::push_words;
use env_frames::Context;
use mips_exec::Cpu;
use run_report::shown_cpu;
use world_model::{Phase, WorldView};

/// How many bytes both notes have.
pub(crate) const NOTES_SIZE: u32 = 352;

/// The type of the registers that Linux keeps.
const PRSTATUS: u32 = 1;

/// Appends the registers of a machine.
#[tactic(auto, unfolding(crate::specs::Notes::register_text))]
fn push_registers(file: &mut Vec<u8>, cpu: &Cpu) -> Result<(), OutOfMemory>
    ensures { OnOk result (file.new.items ≡ file.old.items ++ register_text cpu.now) }
{
    let mut regs = cpu.regs;
    regs[0] = 0;
    push_words(file, &regs)?;
    push_words(file, &[cpu.lo, cpu.hi, cpu.pc])
}

/// Appends Linux' `prstatus` of MIPS.
#[tactic(auto, unfolding(crate::specs::Notes::status_text))]
fn push_status(file: &mut Vec<u8>, env: u8, cpu: &Cpu) -> Result<(), OutOfMemory>
    ensures { OnOk result (file.new.items ≡ file.old.items ++ status_text env cpu.now) }
{
    push_words(file, &[0; 6])?;
    push_words(file, &[u32::from(env)])?;
    push_words(file, &[0; 17])?;
    push_registers(file, cpu)?;
    push_words(file, &[0; 5])
}

/// Appends the note of the registers.
#[tactic(auto, unfolding(crate::specs::Notes::core_note))]
fn push_core_note(file: &mut Vec<u8>, env: u8, cpu: &Cpu) -> Result<(), OutOfMemory>
    ensures { OnOk result (file.new.items ≡ file.old.items ++ core_note env cpu.now) }
{
    push_words(file, &[5, 256, PRSTATUS])?;
    file.extend_from_slice(b"CORE\0\0\0\0")?;
    push_status(file, env, cpu)
}

/// The number of a phase.
fn phase_number(phase: Phase) -> u32
    ensures { result ≡ phase_number phase }
{
    match phase {
        Phase::Own => 1,
        Phase::Grace => 2,
    }
}

/// How an environment runs: the phase, the ticks that are left of it, and the slot; zeros where it doesn't run.
fn running_words<V: WorldView>(view: &V, env: u8) -> [u32; 3]
    ensures { result ≡ running_words env (V.world view.now).book.cursor (V.world view.now).book.runner }
{
    match view.running() {
        Some(runner) if runner.env == env => {
            [phase_number(runner.phase), runner.left, view.slot()]
        }
        _ => [0; 3],
    }
}

/// Appends where an environment goes on, and what the kernel counts of it.
fn push_place<V: WorldView>(
    file: &mut Vec<u8>,
    view: &V,
    env: u8,
    cpu: &Cpu,
) -> Result<(), OutOfMemory>
    requires there { env < (V.world view.now).count }
    requires cpu { cpu.now ≡ shown_cpu (V.world view.now) env }
    ensures { OnOk result (file.new.items ≡ file.old.items ++ words (place_words (V.world view.now) env)) }
{
    let version = u32::from(view.version().number());
    push_words(
        file,
        &[
            view.time(),
            version,
            cpu.next,
            u32::from(cpu.slot),
            view.excess(env),
            view.mask(env),
        ],
    )
}

/// Appends the handlers of an environment.
fn push_handlers<V: WorldView>(file: &mut Vec<u8>, view: &V, env: u8) -> Result<(), OutOfMemory>
    requires { env < (V.world view.now).count }
    ensures { OnOk result (file.new.items ≡ file.old.items ++ words (handler_words ((V.world view.now).solos env).handlers)) }
{
    push_words(
        file,
        &[
            view.handler(env, Context::Exception),
            view.handler(env, Context::Start),
            view.handler(env, Context::End),
            view.handler(env, Context::Asynchronous),
            view.handler(env, Context::Synchronous),
        ],
    )
}

/// Appends the note of what the kernel keeps of an environment.
#[tactic(auto, unfolding(crate::specs::Notes::aegis_note, crate::specs::Notes::kernel_text))]
fn push_aegis_note<V: WorldView>(
    file: &mut Vec<u8>,
    view: &V,
    env: u8,
    cpu: &Cpu,
) -> Result<(), OutOfMemory>
    requires there { env < (V.world view.now).count }
    requires cpu { cpu.now ≡ shown_cpu (V.world view.now) env }
    ensures { OnOk result (file.new.items ≡ file.old.items ++ aegis_note (V.world view.now) env) }
{
    push_words(file, &[6, 56])?;
    file.extend_from_slice(b"AEGIAEGIS\0\0\0")?;
    push_place(file, view, env, cpu)?;
    push_handlers(file, view, env)?;
    push_words(file, &running_words(view, env))
}

/// Appends both notes.
#[tactic(auto, unfolding(crate::specs::Notes::notes_text))]
pub(crate) fn push_notes<V: WorldView>(
    file: &mut Vec<u8>,
    view: &V,
    env: u8,
) -> Result<(), OutOfMemory>
    requires { env < (V.world view.now).count }
    ensures { OnOk result (file.new.items ≡ file.old.items ++ notes_text (V.world view.now) env) }
{
    let cpu = shown_cpu(view, env);
    push_core_note(file, env, &cpu)?;
    push_aegis_note(file, view, env, &cpu)
}
