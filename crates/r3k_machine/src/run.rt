//! Steps one after another, of which the page that is fetched from is kept.
ghost use Rattle.std.specs.Prelude.{◌≡◌, ◌%◌, ◌<◌, ◌≤◌, Ok, true, false, length, IfNone, IfSome, IsSome};
ghost use Rattle.mips_exec.specs.Step.{cpu_after, fetched, write_after};
ghost use Rattle.mips_step.specs.Live.{HasZero, IsSameLive, joined};
ghost use Rattle.mips_step.specs.WordStep.{has_retired};
ghost use Rattle.r3k_machine.specs.Code.{IsCode, has};
ghost use Rattle.r3k_machine.specs.Memory.{frames_written, row_answers, row_step};
ghost use Rattle.r3k_machine.specs.Steps.{RowStepsRetire, after_row_steps, entry_behind, wanted_behind};

use crate::bus::RowBus;
use crate::code::CodePage;
use crate::entry::{Entry, entry_by};
use frame_store::Frames;
use mips_exec::Cpu;
use mips_step::{
    Live, law_plain_words, moves_word, named_address, retire_access, retire_plain,
    retire_word_access,
};
use r3k_cp0::Cp0;
use r3k_tlb::Tlb;

/// Words from this one on are loads, stores and coprocessors.
const FIRST_ACCESS: u32 = 0x8000_0000;

/// A step whose fetch is answered with this word, of which only is told whether it retires. Memory is lent in the arms
/// that ask it, so that other steps don't pay for it.
#[tactic(auto, using(crate::proofs::Written::length_written))]
#[inline(always)]
fn retire_word(live: &mut Live<'_>, frames: &mut Frames, tlb: &Tlb, cp0: &Cp0, word: u32) -> bool
    requires zero { HasZero live.old }
    requires aligned { live.old.pc % 4 ≡ 0 }
    requires fetched { (row_answers cp0.now tlb.now frames.old).fetch live.old.pc ≡ Ok word }
    ensures same { IsSameLive live.old live.new }
    ensures zero { HasZero live.new }
    ensures cpu { joined live.new ≡ cpu_after (joined live.old) (row_step cp0.now tlb.now frames.old (joined live.old)) }
    ensures retired { result ≡ has_retired (row_step cp0.now tlb.now frames.old (joined live.old)) }
    ensures frames { frames.new ≡ frames_written cp0.now tlb.now frames.old (write_after (row_step cp0.now tlb.now frames.old (joined live.old))) }
    ensures size { length frames.new ≡ length frames.old }
{
    if word < FIRST_ACCESS {
        law_plain_words();
        return retire_plain(live, word);
    }
    if moves_word(word) {
        let mut bus = RowBus { frames, tlb, cp0 };
        return retire_word_access(live, &mut bus, word);
    }
    let mut bus = RowBus { frames, tlb, cp0 };
    retire_access(live, &mut bus, word)
}

/// Steps that were made of words in one page.
#[derive(Clone, Copy)]
struct PageSteps {
    /// How many retired.
    made: u32,
    /// The word whose step would have done anything else, where one in the page is next; None where the program has left the
    /// page, or no more steps may be made.
    stopped_at: Option<u32>,
}

/// Steps of a running program, one after another, whose words stand in this page: at most so many, and as long as they
/// retire. The first that would do anything else isn't made.
#[inline(always)]
fn run_page(
    live: &mut Live<'_>,
    frames: &mut Frames,
    tlb: &Tlb,
    cp0: &Cp0,
    code: CodePage,
    most: u32,
) -> PageSteps
    requires zero { HasZero live.old }
    requires code { IsCode cp0.now tlb.now frames.old code }
    ensures same { IsSameLive live.old live.new }
    ensures zero { HasZero live.new }
    ensures machine { record { cpu = joined live.new; frames = frames.new } ≡ after_row_steps cp0.now tlb.now (record { cpu = joined live.old; frames = frames.old }) result.made }
    ensures retire { RowStepsRetire cp0.now tlb.now (record { cpu = joined live.old; frames = frames.old }) result.made }
    ensures most { result.made ≤ most }
    ensures stop { IfSome result.stopped_at (λ word. has_retired (row_step cp0.now tlb.now frames.new (joined live.new)) ≡ false) }
    ensures word { IfSome result.stopped_at (λ word. fetched (row_answers cp0.now tlb.now frames.new) live.new.pc ≡ Ok word) }
    ensures early { IsSome result.stopped_at → result.made < most }
    ensures there { IsSome result.stopped_at → has code live.new.pc ≡ true }
    ensures left { IfNone result.stopped_at (result.made < most → has code live.new.pc ≡ false) }
    ensures size { length frames.new ≡ length frames.old }
{
    for done in 0..most {
        if !code.has(live.pc) {
            return PageSteps {
                made: done,
                stopped_at: None,
            };
        }
        let word = code.word(frames, tlb, cp0, live.pc);
        if !retire_word(live, frames, tlb, cp0, word) {
            return PageSteps {
                made: done,
                stopped_at: Some(word),
            };
        }
    }
    PageSteps {
        made: most,
        stopped_at: None,
    }
}

/// Steps that were made one after another.
#[derive(Clone, Copy)]
pub struct Steps {
    /// How many retired.
    pub made: u32,
    /// What the next asks of memory, where more might have been made: the address that isn't fetched from, or else that of
    /// the word's load or store; None if the word has none.
    pub wanted: Option<u32>,
    /// By what the next enters the kernel, where more might have been made; None where it doesn't.
    pub entry: Option<Entry>,
}

/// Steps of the instruction table, one after another, at most so many, and as long as they retire.
/// The first that would do anything else isn't made.
pub(crate) fn run_rows(cpu: &mut Cpu, frames: &mut Frames, tlb: &Tlb, cp0: &Cp0, most: u32) -> Steps
    ensures machine { record { cpu = cpu.new; frames = frames.new } ≡ after_row_steps cp0.now tlb.now (record { cpu = cpu.old; frames = frames.old }) result.made }
    ensures retire { RowStepsRetire cp0.now tlb.now (record { cpu = cpu.old; frames = frames.old }) result.made }
    ensures most { result.made ≤ most }
    ensures stop { result.made < most → has_retired (row_step cp0.now tlb.now frames.new cpu.new) ≡ false }
    ensures wanted { result.wanted ≡ wanted_behind result.made most cp0.now tlb.now (record { cpu = cpu.new; frames = frames.new }) }
    ensures entry { result.entry ≡ entry_behind result.made most cp0.now tlb.now (record { cpu = cpu.new; frames = frames.new }) }
    ensures size { length frames.new ≡ length frames.old }
{
    let mut live = Live::of(cpu);
    let mut made = 0;
    while made < most {
        let Some(code) = CodePage::at(frames, tlb, cp0, live.pc) else {
            let wanted = Some(live.pc);
            live.settle();
            return Steps {
                made,
                wanted,
                entry: None,
            };
        };
        let steps = run_page(&mut live, frames, tlb, cp0, code, most - made);
        made += steps.made;
        if steps.stopped_at.is_some() {
            // The word is read again: were it kept, the loop of the page would have a register less.
            let word = code.word(frames, tlb, cp0, live.pc);
            let wanted = named_address(&live, word);
            live.settle();
            let entry = entry_by(cpu.slot, word);
            return Steps {
                made,
                wanted,
                entry,
            };
        }
    }
    live.settle();
    Steps {
        made,
        wanted: None,
        entry: None,
    }
}
