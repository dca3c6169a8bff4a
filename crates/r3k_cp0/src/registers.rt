//! The registers of coprocessor 0.
ghost use Rattle.std.specs.Prelude.{◌≡◌, ◌<◌, ◌^◌, IfSome};
ghost use Rattle.r3k_cp0.specs.Registers.{blank_cp0, cp0_reg, current_pid, index_row, is_user, probe_word, takes_interrupts, with_cp0_reg, with_pid};
ghost use Rattle.r3k_cp0.specs.Enter.{context_at, entered, entry_hi_at, left};

use crate::fields::*;
use crate::random::Random;
use mips_exec::{Cpu, Exc, ExcCode, cause_word, restart};

/// The registers of coprocessor 0 by which the processor runs (`docs/MACHINE.md`, "Coprocessor 0"). PRId, which is the
/// same always, isn't among them.
#[derive(Drop)]
pub struct Cp0 {
    /// Index: a row in bits 13:8; bit 31 says that a probe found none.
    pub index: u32,
    /// Random: the row that TLBWR writes.
    pub random: Random,
    /// EntryLo: the second word of a row.
    pub entry_lo: u32,
    /// Context: bits 30:12 of a bad address in bits 20:2, below the kernel's own bits 31:21.
    pub context: u32,
    /// BadVAddr: the bad address.
    pub bad_vaddr: u32,
    /// EntryHi: the first word of a row, of which bits 11:6 are the process that runs.
    pub entry_hi: u32,
    /// Status: bits 5:0 are three pairs of user mode (odd) and interrupts (even), the one in force lowest; bits 15:8 are
    /// the mask of interrupts.
    pub status: u32,
    /// Cause: what the last exception was.
    pub cause: u32,
    /// EPC: where to go on.
    pub epc: u32,
}

impl Cp0 {
    /// The registers when nothing has run: 0, and Random the last row.
    pub fn new() -> Cp0
        ensures { result ≡ blank_cp0 }
    {
        Cp0 {
            index: 0,
            random: Random::last(),
            entry_lo: 0,
            context: 0,
            bad_vaddr: 0,
            entry_hi: 0,
            status: 0,
            cause: 0,
            epc: 0,
        }
    }

    /// What register `n` reads; one without a name reads 0.
    pub fn read(&self, n: u8) -> u32
        ensures { result ≡ cp0_reg self.now n }
    {
        match n {
            INDEX => self.index,
            RANDOM => u32::from(self.random.row()) * ROW_UNIT,
            ENTRY_LO => self.entry_lo,
            CONTEXT => self.context,
            BAD_VADDR => self.bad_vaddr,
            ENTRY_HI => self.entry_hi,
            STATUS => self.status,
            CAUSE => self.cause,
            EPC => self.epc,
            PRID => PROCESSOR,
            _ => 0,
        }
    }

    /// Writes the bits of register `n` that can be written.
    pub fn write(&mut self, n: u8, value: u32)
        ensures { self.new ≡ with_cp0_reg self.old n value }
    {
        match n {
            INDEX => self.index = value / ROW_UNIT % ROWS * ROW_UNIT,
            ENTRY_LO => self.entry_lo = value / ENTRY_LO_UNIT * ENTRY_LO_UNIT,
            CONTEXT => self.context = value / BASE_UNIT * BASE_UNIT + self.context % BASE_UNIT,
            ENTRY_HI => self.entry_hi = value / PID_UNIT * PID_UNIT,
            STATUS => {
                self.status = value / MASK_UNIT % MASKS * MASK_UNIT + value % MODE_PAIRS;
            }
            EPC => self.epc = value,
            _ => (),
        }
    }

    /// The process that runs, below 64.
    #[inline(always)]
    pub fn pid(&self) -> u8
        ensures pid { result ≡ current_pid self.now }
        ensures within { result < 2 ^ 6 }
    {
        (self.entry_hi / PID_UNIT % PIDS) as u8
    }

    /// Another process runs, below 64.
    pub fn set_pid(&mut self, pid: u8)
        requires { pid < 2 ^ 6 }
        ensures { self.new ≡ with_pid self.old pid }
    {
        self.entry_hi = self.entry_hi / VPN_UNIT * VPN_UNIT + u32::from(pid) * PID_UNIT;
    }

    /// Whether the processor is in user mode.
    #[inline(always)]
    pub fn is_user(&self) -> bool
        ensures { result ≡ is_user self.now }
    {
        self.status / USER_UNIT % 2 == 1
    }

    /// Whether an interrupt is taken.
    pub fn takes_interrupts(&self) -> bool
        ensures { result ≡ takes_interrupts self.now }
    {
        self.status % 2 == 1 && self.status / TIMER_UNIT % 2 == 1
    }

    /// The row that Index names, below 64.
    pub fn index_row(&self) -> u8
        ensures row { result ≡ index_row self.now }
        ensures within { result < 2 ^ 6 }
    {
        (self.index / ROW_UNIT % ROWS) as u8
    }

    /// Index takes what a probe found: a row, below 64, or none.
    pub fn set_probe(&mut self, found: Option<u8>)
        requires { IfSome found (λ row. row < 2 ^ 6) }
        ensures { self.new ≡ record self.old { index = probe_word found } }
    {
        self.index = match found {
            Some(row) => u32::from(row) * ROW_UNIT,
            None => NO_ROW,
        };
    }

    /// Enters an exception of the processor with these registers: what it was, and where to go on, is kept, and the mode
    /// is the kernel's, with interrupts off.
    pub fn enter(&mut self, exc: &Exc, cpu: &Cpu)
        ensures { self.new ≡ entered exc.now cpu.now self.old }
    {
        let older = self.status / MODE_PAIRS * MODE_PAIRS;
        self.status = older + self.status % TWO_MODE_PAIRS * MODE_PAIR;
        self.cause = cause_word(exc, cpu.slot);
        self.epc = restart(cpu);
        match exc.code {
            ExcCode::Mod | ExcCode::Tlbl | ExcCode::Tlbs => {
                self.bad_vaddr = exc.bad;
                self.translate_at(exc.bad);
            }
            ExcCode::Adel | ExcCode::Ades => self.bad_vaddr = exc.bad,
            _ => (),
        }
    }

    /// Goes back to the mode before the last exception.
    pub fn rfe(&mut self)
        ensures { self.new ≡ left self.old }
    {
        let oldest = self.status / TWO_MODE_PAIRS * TWO_MODE_PAIRS;
        self.status = oldest + self.status / MODE_PAIR % TWO_MODE_PAIRS;
    }

    /// EntryHi and Context have the virtual page of this address.
    fn translate_at(&mut self, bad: u32)
        ensures { self.new ≡ record self.old { entry_hi = entry_hi_at self.old.entry_hi bad; context = context_at self.old.context bad } }
    {
        self.entry_hi = bad / VPN_UNIT * VPN_UNIT + self.entry_hi % VPN_UNIT;
        let base = self.context / BASE_UNIT * BASE_UNIT;
        let bad_page = bad / VPN_UNIT % BAD_PAGES * BAD_PAGE_UNIT;
        self.context = base + bad_page + self.context % BAD_PAGE_UNIT;
    }
}
