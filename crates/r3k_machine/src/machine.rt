//! The machine: its registers, its rows and coprocessor 0.
ghost use Rattle.std.specs.Prelude.{◌≡◌, ◌<◌, ◌≤◌, ◌/◌, true, if◌then◌else◌, is_some, length, IfSome};
ghost use Rattle.mips_exec.specs.Step.{cpu_after, outcome_of, write_after};
ghost use Rattle.aegis_limits.specs.Limits.{page_size};
ghost use Rattle.r3k_tlb.specs.Row.{pid_numbers};
ghost use Rattle.r3k_tlb.specs.Rows.{first_fitting};
ghost use Rattle.r3k_cp0.specs.Random.{first_random, random_end};
ghost use Rattle.r3k_cp0.specs.Registers.{cp0_reg, current_pid, is_user, with_cp0_reg};
ghost use Rattle.r3k_machine.specs.Exceptions.{as_user, in_exception, interrupted, out_of_exception};
ghost use Rattle.r3k_machine.specs.Machine.{after_attempts, blank_machine, end_of, end_of_trap, user_step};
ghost use Rattle.r3k_machine.specs.Entry.{came_by, entry_at, entry_in};
ghost use Rattle.r3k_machine.specs.Memory.{frames_written};
ghost use Rattle.r3k_machine.specs.System.{machine_step, with_random_fallen};
ghost use Rattle.r3k_machine.specs.Run.{IsRun};

use crate::bus::RowBus;
use crate::code::CodePage;
use crate::entry::{Entry, entry_by};
use crate::run::{Steps, run_rows};
use aegis_limits::PAGE_BYTES;
use frame_store::Frames;
use mips_exec::{Cpu, Exc, ExcCode, Outcome, USER_END};
use mips_step::{law_syscalls_call, step_user};
use r3k_cp0::{Cp0, exception_vector};
use r3k_tlb::Tlb;

/// The processor's registers, the rows of its TLB, and coprocessor 0 (`docs/MACHINE.md`).
#[derive(Drop)]
pub struct Machine {
    pub cpu: Cpu,
    pub tlb: Tlb,
    pub(crate) cp0: Cp0,
}

/// How a step of the machine ended.
#[derive(Clone, Copy)]
pub enum MachineEnd {
    /// The instruction is done.
    Retired,
    /// It is a SYSCALL outside a delay slot; nothing has changed.
    Call,
    /// It can't be done; nothing has changed.
    Trap(Exc),
    /// A user's address has no row; nothing has changed.
    Refill(Exc),
}

impl Machine {
    /// The machine in which nothing has run: all registers are 0 but Random, which names the last row, and PRId; all rows are
    /// emptied.
    pub fn new() -> Machine
        ensures { result ≡ blank_machine }
    {
        Machine {
            cpu: Cpu::blank(),
            tlb: Tlb::new(),
            cp0: Cp0::new(),
        }
    }

    /// Whether a row fits this address for the process that runs.
    fn has_row(&self, address: u32) -> bool
        ensures { result ≡ is_some (first_fitting (address / page_size) (current_pid self.now.cp0) self.now.tlb) }
    {
        self.tlb
            .fitting(address / PAGE_BYTES, self.cp0.pid())
            .is_some()
    }

    /// How a trap ends a step: as a refill where it is a miss of a user's address that no row fits.
    fn end_of_trap(&self, exc: Exc) -> MachineEnd
        ensures { result ≡ end_of_trap self.now.cp0 self.now.tlb exc }
    {
        match exc.code {
            ExcCode::Tlbl | ExcCode::Tlbs if exc.bad < USER_END && !self.has_row(exc.bad) => {
                MachineEnd::Refill(exc)
            }
            _ => MachineEnd::Trap(exc),
        }
    }

    /// Ends an attempted step, which left registers and rows where it trapped: Random falls.
    fn end_step(&mut self, outcome: Outcome) -> MachineEnd
        ensures machine { self.new ≡ with_random_fallen self.old }
        ensures end { result ≡ end_of self.old.cp0 self.old.tlb outcome }
    {
        self.cp0.random.fall();
        match outcome {
            Outcome::Retired => MachineEnd::Retired,
            Outcome::Call => MachineEnd::Call,
            Outcome::Trap(exc) => self.end_of_trap(exc),
        }
    }

    /// A step of the instruction table, but for the fall of Random.
    #[tactic(auto, using(crate::proofs::Written::length_written))]
    pub(crate) fn table_step(&mut self, frames: &mut Frames) -> Outcome
        ensures cpu { self.new.cpu ≡ cpu_after self.old.cpu (user_step self.old frames.old) }
        ensures outcome { result ≡ outcome_of (user_step self.old frames.old) }
        ensures frames { frames.new ≡ frames_written self.old.cp0 self.old.tlb frames.old (write_after (user_step self.old frames.old)) }
        ensures size { length frames.new ≡ length frames.old }
        ensures rows { self.new.tlb ≡ self.old.tlb }
        ensures cp0 { self.new.cp0 ≡ self.old.cp0 }
    {
        let mut bus = RowBus {
            frames,
            tlb: &self.tlb,
            cp0: &self.cp0,
        };
        step_user(&mut self.cpu, &mut bus)
    }

    /// By what the next step in user mode enters the kernel, if it is a call or a BREAK that can be fetched.
    #[inline(always)]
    fn entry_at(&self, frames: &Frames) -> Option<Entry>
        ensures { result ≡ entry_at self.now frames.now }
    {
        match CodePage::at(frames, &self.tlb, &self.cp0, self.cpu.pc) {
            Some(code) => {
                let word = code.word(frames, &self.tlb, &self.cp0, self.cpu.pc);
                entry_by(self.cpu.slot, word)
            }
            None => None,
        }
    }

    /// Makes the next step in user mode if by it the program enters the kernel, and says by what: a call, or a BREAK, that
    /// can be fetched. Then Random is lowered by one, and nothing else changes; otherwise nothing does.
    #[inline(always)]
    pub fn attempt_entry(&mut self, frames: &Frames) -> Option<Entry>
        ensures at { result ≡ entry_in (user_step self.old frames.now) }
        ensures came { IfSome result (λ entry. user_step self.old frames.now ≡ came_by entry) }
        ensures machine { self.new ≡ if is_some result then record self.old { cp0 = after_attempts 1 self.old.cp0 } else self.old }
    {
        law_syscalls_call();
        let entry = self.entry_at(frames);
        if entry.is_some() {
            self.cp0.random.fall();
        }
        entry
    }

    /// One step in user mode, over physical memory. It lowers Random by one, however it ends.
    pub fn user_step(&mut self, frames: &mut Frames) -> MachineEnd
        requires user { is_user self.old.cp0 ≡ true }
        ensures cpu { self.new.cpu ≡ cpu_after self.old.cpu (user_step self.old frames.old) }
        ensures end { result ≡ end_of self.old.cp0 self.old.tlb (outcome_of (user_step self.old frames.old)) }
        ensures frames { frames.new ≡ frames_written self.old.cp0 self.old.tlb frames.old (write_after (user_step self.old frames.old)) }
        ensures size { length frames.new ≡ length frames.old }
        ensures rows { self.new.tlb ≡ self.old.tlb }
        ensures cp0 { self.new.cp0 ≡ after_attempts 1 self.old.cp0 }
    {
        let outcome = self.table_step(frames);
        self.end_step(outcome)
    }

    /// One step, over physical memory, in the mode that Status says: in kernel mode the instructions of coprocessor 0
    /// are done, which in user mode are exceptions. It lowers Random by one, however it ends.
    pub fn step(&mut self, frames: &mut Frames) -> MachineEnd
        ensures machine { self.new ≡ with_random_fallen (machine_step self.old frames.old).machine }
        ensures end { result ≡ end_of self.old.cp0 self.old.tlb (machine_step self.old frames.old).outcome }
        ensures frames { frames.new ≡ (machine_step self.old frames.old).frames }
        ensures size { length frames.new ≡ length frames.old }
    {
        let outcome = match self.system_word(frames) {
            Some(word) => self.system_step(word),
            None => self.table_step(frames),
        };
        self.end_step(outcome)
    }

    /// Steps of the instruction table, one after another, at most so many, and as long as they retire. It ends before that
    /// number only where the next step of the table wouldn't retire, which isn't made: so it
    /// ends before an instruction of coprocessor 0. Random is lowered once for each.
    pub fn run(&mut self, frames: &mut Frames, most: u32) -> Steps
        ensures { IsRun self.old self.new frames.old frames.new most result }
    {
        law_syscalls_call();
        let steps = run_rows(&mut self.cpu, frames, &self.tlb, &self.cp0, most);
        self.cp0.random.fall_times(steps.made);
        steps
    }

    /// Has a process, by its number below 64, run in user mode.
    pub fn set_user(&mut self, pid: u8)
        requires { pid < pid_numbers }
        ensures machine { self.new ≡ as_user self.old pid }
        ensures user { is_user self.new.cp0 ≡ true }
        ensures pid { current_pid self.new.cp0 ≡ pid }
    {
        self.cp0.set_pid(pid);
        self.cp0.status = self.cp0.status / 4 * 4 + 2 + self.cp0.status % 2;
    }

    /// Enters an exception: where to go on, and why, is kept by coprocessor 0, and the kernel's vector is next.
    pub fn enter_exception(&mut self, exc: &Exc)
        ensures { self.new ≡ in_exception self.old exc.now }
    {
        let vector = exception_vector(exc, self.has_row(exc.bad));
        self.cp0.enter(exc, &self.cpu);
        self.cpu.go_on_at(vector);
    }

    /// Enters an interrupt.
    pub fn interrupt(&mut self)
        ensures { self.new ≡ interrupted self.old }
    {
        self.enter_exception(&Exc::plain(ExcCode::Int));
    }

    /// Goes back to the mode before the last exception, as RFE does.
    pub fn rfe(&mut self)
        ensures { self.new ≡ out_of_exception self.old }
    {
        self.cp0.rfe();
    }

    /// What register `n` of coprocessor 0 reads, as MFC0 reads it; one without a name reads 0.
    pub fn cp0(&self, n: u8) -> u32
        ensures { result ≡ cp0_reg self.now.cp0 n }
    {
        self.cp0.read(n)
    }

    /// Writes the bits of register `n` of coprocessor 0 that MTC0 writes.
    pub fn set_cp0(&mut self, n: u8, value: u32)
        ensures { self.new ≡ record self.old { cp0 = with_cp0_reg self.old.cp0 n value } }
    {
        self.cp0.write(n, value);
    }

    /// The row that Random names, from 8 to 63.
    pub fn random(&self) -> u8
        ensures row { result ≡ self.now.cp0.random }
        ensures least { first_random ≤ result }
        ensures within { result < random_end }
    {
        self.cp0.random.row()
    }

    /// Random falls once without a step, as after a refill.
    pub fn fall(&mut self)
        ensures { self.new ≡ record self.old { cp0 = after_attempts 1 self.old.cp0 } }
    {
        self.cp0.random.fall();
    }
}
