//! One step of a user program.
ghost use Rattle.std.specs.Prelude.{◌≡◌, ◌<◌, ◌≤◌, ◌^◌, None, true};
ghost use Rattle.mips_isa.specs.Encoding.{insn_of};
ghost use Rattle.mips_exec.specs.Access.{access};
ghost use Rattle.mips_exec.specs.Step.{cpu_after, outcome_of, step_of, view_of, write_after, Wrote};
ghost use Rattle.mips_step.specs.Live.{HasZero, IsSameLive, joined};
ghost use Rattle.mips_step.specs.WordStep.{fetched_step, has_retired, is_syscall, moves_word, named_address, plain_step, step_of_change};

use crate::change::{apply, retire};
use crate::live::Live;
use crate::memory::Bus;
use crate::memory_table::{change_after_access, change_after_word};
use crate::table::{change_without_access, rs_value, signed_imm};
use mips_codec::{SPECIAL, function, opcode};
use mips_exec::{Change, Cpu, Exc, ExcCode, Outcome};

/// Words from this one on are loads, stores and coprocessors.
const ACCESSES: u32 = 0x8000_0000;

/// The function of SYSCALL.
const SYSCALL: u8 = 12;

/// The change of a word, once memory has answered its load or store, or what the access raises.
#[inline(always)]
fn change_of_word<B: Bus>(live: &Live<'_>, bus: &mut B, word: u32) -> Result<Change, Exc>
    requires zero { HasZero live.now }
    ensures step { step_of_change (joined live.now) (access (insn_of word) (joined live.now)) result ≡ fetched_step (B.answers bus.old) (joined live.now) word }
    ensures memory { Wrote B.Kept B.Stored bus.old (write_after (fetched_step (B.answers bus.old) (joined live.now) word)) bus.new }
{
    if word < ACCESSES {
        Ok(change_without_access(live, word))
    } else {
        change_after_access(live, bus, word)
    }
}

/// The step of a word that was fetched (`docs/MACHINE.md`, "Effect"). A call of the kernel and an exception leave the
/// registers and memory.
#[tactic(auto, using(crate::proofs::Ended::cpu_ended, crate::proofs::Ended::outcome_ended))]
#[inline(always)]
fn step_live<B: Bus>(live: &mut Live<'_>, bus: &mut B, word: u32) -> Outcome
    requires zero { HasZero live.old }
    ensures same { IsSameLive live.old live.new }
    ensures cpu { joined live.new ≡ cpu_after (joined live.old) (fetched_step (B.answers bus.old) (joined live.old) word) }
    ensures outcome { result ≡ outcome_of (fetched_step (B.answers bus.old) (joined live.old) word) }
    ensures memory { Wrote B.Kept B.Stored bus.old (write_after (fetched_step (B.answers bus.old) (joined live.old) word)) bus.new }
{
    match change_of_word(live, bus, word) {
        Ok(change) => apply(live, change),
        Err(exc) => Outcome::Trap(exc),
    }
}

/// The step of a word below 2^31, of which only is told whether it retires, for a loop of steps. It asks no memory.
#[tactic(auto, using(crate::proofs::Ended::cpu_ended, crate::proofs::Ended::retired_ended))]
#[inline(always)]
pub fn retire_plain(live: &mut Live<'_>, word: u32) -> bool
    requires zero { HasZero live.old }
    requires word { word < 2 ^ 31 }
    ensures same { IsSameLive live.old live.new }
    ensures zero { HasZero live.new }
    ensures cpu { joined live.new ≡ cpu_after (joined live.old) (plain_step (joined live.old) word) }
    ensures retired { result ≡ has_retired (plain_step (joined live.old) word) }
    ensures plain { access (insn_of word) (joined live.old) ≡ None }
{
    let change = change_without_access(live, word);
    retire(live, change)
}

/// The same of LW or SW, which most accesses are.
#[tactic(auto, using(crate::proofs::Ended::cpu_ended, crate::proofs::Ended::retired_ended))]
#[inline(always)]
pub fn retire_word_access<B: Bus>(live: &mut Live<'_>, bus: &mut B, word: u32) -> bool
    requires zero { HasZero live.old }
    requires word { moves_word word ≡ true }
    ensures same { IsSameLive live.old live.new }
    ensures zero { HasZero live.new }
    ensures cpu { joined live.new ≡ cpu_after (joined live.old) (fetched_step (B.answers bus.old) (joined live.old) word) }
    ensures retired { result ≡ has_retired (fetched_step (B.answers bus.old) (joined live.old) word) }
    ensures memory { Wrote B.Kept B.Stored bus.old (write_after (fetched_step (B.answers bus.old) (joined live.old) word)) bus.new }
{
    match change_after_word(live, bus, word) {
        Ok(change) => retire(live, change),
        Err(_) => false,
    }
}

/// The same of any word from 2^31 on.
#[tactic(auto, using(crate::proofs::Ended::cpu_ended, crate::proofs::Ended::retired_ended))]
#[inline(always)]
pub fn retire_access<B: Bus>(live: &mut Live<'_>, bus: &mut B, word: u32) -> bool
    requires zero { HasZero live.old }
    requires word { 2 ^ 31 ≤ word }
    ensures same { IsSameLive live.old live.new }
    ensures zero { HasZero live.new }
    ensures cpu { joined live.new ≡ cpu_after (joined live.old) (fetched_step (B.answers bus.old) (joined live.old) word) }
    ensures retired { result ≡ has_retired (fetched_step (B.answers bus.old) (joined live.old) word) }
    ensures memory { Wrote B.Kept B.Stored bus.old (write_after (fetched_step (B.answers bus.old) (joined live.old) word)) bus.new }
{
    match change_after_access(live, bus, word) {
        Ok(change) => retire(live, change),
        Err(_) => false,
    }
}

/// The address that the word names if it loads or stores; a word below 2^31 does neither.
#[inline(always)]
pub fn named_address(live: &Live<'_>, word: u32) -> Option<u32>
    requires { HasZero live.now }
    ensures { result ≡ named_address (joined live.now) word }
{
    if word < ACCESSES {
        return None;
    }
    Some(rs_value(live, word).wrapping_add(signed_imm(word)))
}

/// Whether the word is SYSCALL, with any code.
#[inline(always)]
pub fn is_syscall(word: u32) -> bool
    ensures { result ≡ is_syscall word }
{
    opcode(word) == SPECIAL && function(word) == SYSCALL
}

/// The step of a word that was fetched (`docs/MACHINE.md`, "Effect"). A call of the kernel and an exception leave the
/// registers and memory.
#[inline(always)]
pub fn step_fetched<B: Bus>(cpu: &mut Cpu, bus: &mut B, word: u32) -> Outcome
    ensures cpu { cpu.new ≡ cpu_after cpu.old (fetched_step (B.answers bus.old) cpu.old word) }
    ensures outcome { result ≡ outcome_of (fetched_step (B.answers bus.old) cpu.old word) }
    ensures memory { Wrote B.Kept B.Stored bus.old (write_after (fetched_step (B.answers bus.old) cpu.old word)) bus.new }
{
    let mut live = Live::of(cpu);
    let outcome = step_live(&mut live, bus, word);
    live.settle();
    outcome
}

/// One step of a user program: the fetch, then the encoding, then the execution.
pub fn step_user<B: Bus>(cpu: &mut Cpu, bus: &mut B) -> Outcome
    ensures cpu { cpu.new ≡ cpu_after cpu.old (step_of cpu.old (view_of (B.answers bus.old) cpu.old)) }
    ensures outcome { result ≡ outcome_of (step_of cpu.old (view_of (B.answers bus.old) cpu.old)) }
    ensures memory { Wrote B.Kept B.Stored bus.old (write_after (step_of cpu.old (view_of (B.answers bus.old) cpu.old))) bus.new }
{
    if cpu.pc % 4 != 0 {
        return Outcome::Trap(Exc::plain(ExcCode::Adel).at(cpu.pc));
    }
    match bus.fetch(cpu.pc) {
        Ok(word) => step_fetched(cpu, bus, word),
        Err(exc) => Outcome::Trap(exc.at(cpu.pc)),
    }
}
