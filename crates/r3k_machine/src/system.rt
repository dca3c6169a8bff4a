//! The instructions of coprocessor 0, which run in kernel mode.
ghost use Rattle.std.specs.Prelude.{◌≡◌, ◌<◌, is_some};
ghost use Rattle.std.specs.Option.{unwrap_or};
ghost use Rattle.mips_isa.specs.Encoding.{insn_of};
ghost use Rattle.mips_exec.specs.Step.{fetched};
ghost use Rattle.r3k_tlb.specs.Rows.{row_at, row_count};
ghost use Rattle.r3k_cp0.specs.Registers.{index_row};
ghost use Rattle.r3k_machine.specs.Memory.{row_answers};
ghost use Rattle.r3k_machine.specs.System.{probed, system_effect, system_machine, system_outcome, system_word, with_entry, with_row_written};

use crate::machine::Machine;
use crate::translation::reached_page;
use aegis_limits::PAGE_BYTES;
use byteorder::{ByteOrder, LittleEndian};
use frame_store::Frames;
use mips_codec::{COP0, decode, opcode};
use mips_exec::{AccessKind, Exc, ExcCode, Outcome};
use mips_isa::Insn;

impl Machine {
    /// The word at pc, or what its fetch raises.
    #[tactic(auto, unfolding(crate::specs::Memory::row_answers))]
    fn fetched(&self, frames: &Frames) -> Result<u32, Exc>
        ensures { result ≡ fetched (row_answers self.now.cp0 self.now.tlb frames.now) self.now.cpu.pc }
    {
        let pc = self.cpu.pc;
        if pc % 4 != 0 {
            return Err(Exc::plain(ExcCode::Adel));
        }
        let page = reached_page(frames, &self.tlb, &self.cp0, AccessKind::Fetch, pc)?;
        Ok(LittleEndian::read_u32(frames.bytes_from(page, pc)))
    }

    /// EntryHi and EntryLo take the words of the row that Index names.
    fn read_row(&mut self)
        ensures { self.new ≡ record self.old { cp0 = with_entry self.old.cp0 (row_at self.old.tlb (index_row self.old.cp0)) } }
    {
        let row = self.tlb.read(self.cp0.index_row());
        self.cp0.entry_hi = row.hi;
        self.cp0.entry_lo = row.lo;
    }

    /// The row of this number, below 64, takes the words of EntryHi and EntryLo.
    fn write_row(&mut self, i: u8)
        requires { i < row_count }
        ensures { self.new ≡ with_row_written self.old i }
    {
        self.tlb.write(i, self.cp0.entry_hi, self.cp0.entry_lo);
    }

    /// Index takes the lowest row that fits the VPN and the process of EntryHi.
    fn probe(&mut self)
        ensures { self.new ≡ record self.old { cp0 = probed self.old.tlb self.old.cp0 } }
    {
        let found = self
            .tlb
            .probe(self.cp0.entry_hi / PAGE_BYTES, self.cp0.pid());
        self.cp0.set_probe(found);
    }

    /// Does what an instruction of coprocessor 0 does; the result is whether it is one.
    #[tactic(auto, unfolding(crate::specs::System::system_effect))]
    fn do_system(&mut self, insn: Insn) -> bool
        ensures machine { self.new ≡ unwrap_or (system_effect insn self.old) self.old }
        ensures is { result ≡ is_some (system_effect insn self.old) }
    {
        match insn {
            Insn::Mfc0 { rt, rd } => {
                let value = self.cp0(rd);
                self.cpu.set_reg(rt, value);
            }
            Insn::Mtc0 { rt, rd } => {
                let value = self.cpu.reg(rt);
                self.set_cp0(rd, value);
            }
            Insn::Tlbr => self.read_row(),
            Insn::Tlbwi => {
                let row = self.cp0.index_row();
                self.write_row(row);
            }
            Insn::Tlbwr => {
                let row = self.random();
                self.write_row(row);
            }
            Insn::Tlbp => self.probe(),
            Insn::Rfe => self.rfe(),
            _ => return false,
        }
        true
    }

    /// The step of a word of coprocessor 0's opcode.
    pub(crate) fn system_step(&mut self, word: u32) -> Outcome
        ensures machine { self.new ≡ system_machine self.old (system_effect (insn_of word) self.old) }
        ensures outcome { result ≡ system_outcome (system_effect (insn_of word) self.old) }
    {
        if !self.do_system(decode(word)) {
            return Outcome::Trap(Exc::plain(ExcCode::Ri));
        }
        self.cpu.advance();
        Outcome::Retired
    }

    /// The word of coprocessor 0's opcode that the next step runs in kernel mode, if it is one.
    pub(crate) fn system_word(&self, frames: &Frames) -> Option<u32>
        ensures { result ≡ system_word self.now frames.now }
    {
        if self.cp0.is_user() {
            return None;
        }
        match self.fetched(frames) {
            Ok(word) if opcode(word) == COP0 => Some(word),
            _ => None,
        }
    }
}
