//! The bare board, and its ticks.
ghost use Rattle.std.specs.Prelude.{◌≡◌, ◌+◌, ◌<◌, ◌≤◌, ℕ, true, false, length, IfOk};
ghost use Rattle.r3k_cp0.specs.Registers.{is_user, takes_interrupts};
ghost use Rattle.bare_board.specs.Loading.{bare_pages};
ghost use Rattle.bare_board.specs.Run.{run_after};
ghost use Rattle.bare_board.specs.Stretch.{AreCalm, IsPlain, TicksLead};
ghost use Rattle.bare_board.specs.Tick.{acted, after_interrupt, after_step, board_of, is_due, is_interrupted, ticked, with_due};

use crate::loading::load;
use aegis_limits::OutOfMemory;
use frame_store::Frames;
use mips_exec::{Exc, ExcCode};
use r3k_machine::{Machine, MachineEnd, law_retired_steps};
use std::alloc::Global;

/// The address of the first instruction.
const ENTRY: u32 = 0x8000_0100;

/// The number of Status among the registers of coprocessor 0.
const STATUS: u8 = 12;

/// A machine with its memory, and whether an interrupt is pending.
#[derive(Drop)]
pub(crate) struct Board {
    pub(crate) machine: Machine,
    pub(crate) frames: Frames,
    pub(crate) pending: bool,
}

impl Board {
    /// The board on which a file is about to run.
    pub(crate) fn new(alloc: Global, file: &[u8]) -> Result<Board, OutOfMemory>
        ensures board { IfOk result (λ b. b ≡ board_of file.now) }
        ensures size { IfOk result (λ b. length b.frames ≡ bare_pages) }
    {
        let mut machine = Machine::new();
        machine.cpu.pc = ENTRY;
        machine.cpu.next = ENTRY + 4;
        Ok(Board {
            machine,
            frames: load(alloc, file)?,
            pending: false,
        })
    }

    /// The register Status of coprocessor 0.
    fn status(&self) -> u32
        ensures { result ≡ self.now.machine.cp0.status }
    {
        self.machine.cp0(STATUS)
    }

    /// Whether the machine is in user mode.
    fn is_user(&self) -> bool
        ensures { result ≡ is_user self.now.machine.cp0 }
    {
        self.status() / 2 % 2 == 1
    }

    /// Whether the machine takes an interrupt.
    fn takes_interrupts(&self) -> bool
        ensures { result ≡ takes_interrupts self.now.machine.cp0 }
    {
        self.status() % 2 == 1 && self.status() / 0x8000 % 2 == 1
    }

    /// The machine makes a step; whether it halts.
    fn step(&mut self) -> bool
        ensures step { record { board = self.new; halted = result } ≡ after_step self.old }
        ensures size { length self.new.frames ≡ length self.old.frames }
    {
        match self.machine.step(&mut self.frames) {
            MachineEnd::Retired => (),
            MachineEnd::Call => self.machine.enter_exception(&Exc::plain(ExcCode::Sys)),
            MachineEnd::Refill(exc) => self.machine.enter_exception(&exc),
            MachineEnd::Trap(exc) => {
                if matches!(exc.code, ExcCode::Bp) && !self.is_user() {
                    return true;
                }
                self.machine.enter_exception(&exc);
            }
        }
        false
    }

    /// An interrupt that is due in the tick of this number becomes pending.
    fn ask_for_interrupt(&mut self, period: u32, t: u32)
        ensures { self.new ≡ with_due period t self.old }
    {
        self.pending = self.pending || is_due(period, t);
    }

    /// Whether an interrupt is pending, and taken.
    fn is_interrupted(&self) -> bool
        ensures { result ≡ is_interrupted self.now }
    {
        self.pending && self.takes_interrupts()
    }

    /// Takes the interrupt that is pending.
    fn interrupt(&mut self)
        ensures { self.new ≡ after_interrupt self.old }
    {
        self.pending = false;
        self.machine.interrupt();
    }

    /// Takes an interrupt, or makes a step; whether the board halts.
    fn act(&mut self) -> bool
        ensures act { record { board = self.new; halted = result } ≡ acted self.old }
        ensures size { length self.new.frames ≡ length self.old.frames }
    {
        if self.is_interrupted() {
            self.interrupt();
            return false;
        }
        self.step()
    }

    /// The tick of this number, with interrupts by this period; whether the board halts.
    #[tactic(auto, unfolding(crate::specs::Tick::ticked))]
    fn tick(&mut self, period: u32, t: u32) -> bool
        ensures tick { record { board = self.new; halted = result } ≡ ticked period t self.old }
        ensures size { length self.new.frames ≡ length self.old.frames }
    {
        self.ask_for_interrupt(period, t);
        self.act()
    }

    /// How many ticks from the tick of this number on, at most so many, are calm: no interrupt becomes pending in them,
    /// and none is taken.
    fn calm_ticks(&self, period: u32, t: u32, most: u32) -> u32
        ensures calm { AreCalm period t self.now result }
        ensures next { is_interrupted self.now ≡ false → result < most → is_due period (t + result) ≡ true }
        ensures most { result ≤ most }
    {
        if self.is_interrupted() {
            return 0;
        }
        ticks_before_due(period, t, most)
    }

    /// Plain ticks from the tick of this number on, at most so many, in one call of the machine; the result is how many,
    /// and may be none. It ends before that number only where the next tick isn't plain.
    fn stretch(&mut self, period: u32, t: u32, most: u32) -> u32
        ensures lead { TicksLead period t self.old self.new result }
        ensures stop { IsPlain period (t + result) self.new → most ≤ result }
        ensures most { result ≤ most }
        ensures size { length self.new.frames ≡ length self.old.frames }
    {
        law_retired_steps();
        let calm = self.calm_ticks(period, t, most);
        self.machine.run(&mut self.frames, calm).made
    }

    /// Runs for at most so many ticks, with interrupts by this period; the ticks done before it halted, if it did. A
    /// tick is made by its parts, and the plain ticks behind it in one stretch.
    pub(crate) fn run(&mut self, ticks: u32, period: u32) -> Option<u32>
        ensures run { record { board = self.new; halt = result } ≡ run_after period self.old ticks }
        ensures size { length self.new.frames ≡ length self.old.frames }
    {
        let mut t = 0;
        while t < ticks {
            if self.tick(period, t) {
                return Some(t);
            }
            t += 1;
            t += self.stretch(period, t, ticks - t);
        }
        None
    }
}

/// Whether an interrupt becomes pending in the tick of this number.
fn is_due(period: u32, t: u32) -> bool
    ensures { result ≡ is_due period t }
{
    period > 0 && t > 0 && t % period == 0
}

/// How many ticks from the tick of this number on, at most so many, have no interrupt that becomes pending. It is fewer
/// only where the next tick has one.
fn ticks_before_due(period: u32, t: u32, most: u32) -> u32
    ensures none { (k : ℕ) → k < result → is_due period (t + k) ≡ false }
    ensures next { result < most → is_due period (t + result) ≡ true }
    ensures most { result ≤ most }
{
    if period == 0 {
        most
    } else if is_due(period, t) {
        0
    } else {
        most.min(period - t % period)
    }
}
