//! The text of a run.
ghost use Rattle.std.specs.Prelude.{◌≡◌, ◌++◌, ◌-◌, length, IfOk, OnOk};
ghost use Rattle.std.specs.List.{concat};
ghost use Rattle.frame_store.specs.Pages.{page_at};
ghost use Rattle.bare_board.specs.Loading.{bare_pages};
ghost use Rattle.bare_board.specs.Text.{console_in, cp0_line, cpu_line, end_line, end_name, head_lines, memory_lines, out_line, ram_line, regs_line, register_lines, run_text};

use crate::ending::BareEnd;
use crate::loading::BARE_PAGES;
use aegis_limits::OutOfMemory;
use frame_store::Frames;
use line_text::{Word, end_line, push_line, push_word};
use machine_text::{cpu_words, fingerprint, push_register_words, push_row_lines};
use mips_exec::Cpu;
use r3k_machine::Machine;
use r3k_tlb::Tlb;
use std::alloc::Global;

/// The bytes of a word, behind which the console begins in its page.
const WORD_BYTES: usize = 4;

/// The name of how a run ended.
fn end_name(how: BareEnd) -> &'static [u8]
    ensures { result.now ≡ end_name how }
{
    match how {
        BareEnd::Halt => b"halt",
        BareEnd::Limit => b"limit",
    }
}

/// Appends the line of how the run ended, and of the ticks done before.
#[tactic(auto, unfolding(crate::specs::Text::end_line, line_text::specs::WrittenLine::line_of))]
fn push_end_line(out: &mut Vec<u8>, how: BareEnd, ticks: u32) -> Result<(), OutOfMemory>
    ensures { OnOk result (out.new.items ≡ out.old.items ++ end_line how ticks) }
{
    push_line(
        out,
        b"end",
        &[Word::Text(end_name(how)), Word::Number(u64::from(ticks))],
    )
}

/// The console in its page.
#[tactic(auto, unfolding(crate::specs::Text::console_in))]
fn console_in(frames: &Frames) -> &[u8]
    requires { length frames.now ≡ bare_pages }
    ensures { result.now ≡ console_in (page_at frames.now (bare_pages - 1)) }
{
    let page = BARE_PAGES - 1;
    let length = frames.word(page, 0) as usize;
    let bytes = &frames.page(page)[WORD_BYTES..];
    &bytes[..length.min(bytes.len())]
}

/// Appends the line of the console.
#[tactic(auto, unfolding(crate::specs::Text::out_line, line_text::specs::WrittenLine::line_of))]
fn push_out_line(out: &mut Vec<u8>, console: &[u8]) -> Result<(), OutOfMemory>
    ensures { OnOk result (out.new.items ≡ out.old.items ++ out_line console.now) }
{
    let length = Word::Number(console.len() as u64);
    push_line(out, b"out", &[length, Word::Quotation(console)])
}

/// Appends the line of the program counters, the slot flag, HI and LO.
#[tactic(auto, unfolding(crate::specs::Text::cpu_line, line_text::specs::WrittenLine::line_of))]
fn push_cpu_line(out: &mut Vec<u8>, cpu: &Cpu) -> Result<(), OutOfMemory>
    ensures { OnOk result (out.new.items ≡ out.old.items ++ cpu_line cpu.now) }
{
    push_line(out, b"cpu", &cpu_words(cpu))
}

/// Appends the line of registers 1 to 31.
#[tactic(auto, unfolding(crate::specs::Text::regs_line))]
fn push_regs_line(out: &mut Vec<u8>, cpu: &Cpu) -> Result<(), OutOfMemory>
    ensures { OnOk result (out.new.items ≡ out.old.items ++ regs_line cpu.now) }
{
    push_word(out, Word::Text(b"regs"))?;
    push_register_words(out, cpu)?;
    end_line(out)
}

/// Appends the line of the registers of coprocessor 0.
#[tactic(auto, unfolding(crate::specs::Text::cp0_line, line_text::specs::WrittenLine::line_of))]
fn push_cp0_line(out: &mut Vec<u8>, machine: &Machine) -> Result<(), OutOfMemory>
    ensures { OnOk result (out.new.items ≡ out.old.items ++ cp0_line machine.now.cp0) }
{
    let words = [
        Word::Hexadecimal(machine.cp0(0)),
        Word::Hexadecimal(machine.cp0(1)),
        Word::Hexadecimal(machine.cp0(2)),
        Word::Hexadecimal(machine.cp0(4)),
        Word::Hexadecimal(machine.cp0(8)),
        Word::Hexadecimal(machine.cp0(10)),
        Word::Hexadecimal(machine.cp0(12)),
        Word::Hexadecimal(machine.cp0(13)),
        Word::Hexadecimal(machine.cp0(14)),
    ];
    push_line(out, b"cp0", &words)
}

/// The bytes of physical memory.
fn all_bytes(alloc: Global, frames: &Frames) -> Result<Vec<u8>, OutOfMemory>
    ensures { IfOk result (λ v. v.items ≡ concat frames.now) }
{
    let mut bytes = Vec::new(alloc);
    for n in 0..frames.pages() {
        bytes.extend_from_slice(frames.page(n))?;
    }
    Ok(bytes)
}

/// Appends the line of physical memory.
#[tactic(auto, unfolding(crate::specs::Text::ram_line, line_text::specs::WrittenLine::line_of))]
fn push_ram_line(alloc: Global, out: &mut Vec<u8>, frames: &Frames) -> Result<(), OutOfMemory>
    ensures { OnOk result (out.new.items ≡ out.old.items ++ ram_line frames.now) }
{
    let bytes = all_bytes(alloc, frames)?;
    let fingerprint = fingerprint(&bytes);
    push_line(out, b"ram", &[Word::Text(&fingerprint)])
}

/// Appends the lines of the registers.
#[tactic(auto, unfolding(crate::specs::Text::register_lines))]
fn push_registers(out: &mut Vec<u8>, machine: &Machine) -> Result<(), OutOfMemory>
    ensures { OnOk result (out.new.items ≡ out.old.items ++ register_lines machine.now.cpu machine.now.cp0) }
{
    push_cpu_line(out, &machine.cpu)?;
    push_regs_line(out, &machine.cpu)?;
    push_cp0_line(out, machine)
}

/// Appends the first lines: the command, and how the run ended.
#[tactic(auto, unfolding(crate::specs::Text::head_lines))]
fn push_head(out: &mut Vec<u8>, how: BareEnd, ticks: u32) -> Result<(), OutOfMemory>
    ensures { OnOk result (out.new.items ≡ out.old.items ++ head_lines how ticks) }
{
    push_word(out, Word::Text(b"aegis bare\n"))?;
    push_end_line(out, how, ticks)
}

/// Appends the lines of physical memory and of the rows.
#[tactic(auto, unfolding(crate::specs::Text::memory_lines))]
fn push_memory(
    alloc: Global,
    out: &mut Vec<u8>,
    tlb: &Tlb,
    frames: &Frames,
) -> Result<(), OutOfMemory>
    ensures { OnOk result (out.new.items ≡ out.old.items ++ memory_lines tlb.now frames.now) }
{
    push_ram_line(alloc, out, frames)?;
    push_row_lines(out, tlb)
}

/// Appends the text of a run that ended so, after so many ticks.
#[tactic(auto, unfolding(crate::specs::Text::run_text))]
pub(crate) fn push_run(
    alloc: Global,
    out: &mut Vec<u8>,
    how: BareEnd,
    ticks: u32,
    machine: &Machine,
    frames: &Frames,
) -> Result<(), OutOfMemory>
    requires { length frames.now ≡ bare_pages }
    ensures { OnOk result (out.new.items ≡ out.old.items ++ run_text how ticks machine.now.cpu machine.now.cp0 machine.now.tlb frames.now) }
{
    push_head(out, how, ticks)?;
    push_out_line(out, console_in(frames))?;
    push_registers(out, machine)?;
    push_memory(alloc, out, &machine.tlb, frames)?;
    push_word(out, Word::Text(b"done\n"))
}
