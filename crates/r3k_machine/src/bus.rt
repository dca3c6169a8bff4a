//! Physical memory as the processor sees it through the TLB.

use crate::translation::reached_page;
use aegis_limits::PAGE_BYTES;
use byte_numbers::number_at;
use byteorder::{ByteOrder, LittleEndian};
use frame_store::Frames;
use mips_exec::{AccessKind, Exc};
use mips_step::Bus;
use r3k_cp0::Cp0;
use r3k_tlb::Tlb;

/// Physical memory and the rows, lent for the accesses of a step.
#[derive(Drop)]
pub(crate) struct RowBus<'a> {
    pub frames: &'a mut Frames,
    pub tlb: &'a Tlb,
    pub cp0: &'a Cp0,
}

impl Bus for RowBus<'_> {
    ghost use Rattle.std.proofs.Common.{Some, refl, sym, ◌∙◌, ap};
    ghost use Rattle.r3k_machine.specs.Lent.{IsKept, IsStored};
    ghost use Rattle.r3k_machine.specs.Memory.{frames_written, row_answers};

    ghost answers = { λ b. row_answers b.cp0.now b.tlb.now b.frames.now };

    ghost Kept = { IsKept };

    ghost Stored = { IsStored };

    ghost keeps_itself = { λ b. record { lent = refl; frames = refl; rows = refl; cp0 = refl } };

    ghost keeps_on = { λ a b c first then. record { lent = then.lent ∙ first.lent; frames = then.frames ∙ first.frames; rows = then.rows ∙ first.rows; cp0 = then.cp0 ∙ first.cp0 } };

    ghost keeps_answers = { λ a b kept. ap (λ c. row_answers c a.tlb.now a.frames.now) (sym kept.cp0) ∙ ap (λ rows. row_answers b.cp0.now rows a.frames.now) (sym kept.rows) ∙ ap (row_answers b.cp0.now b.tlb.now) (sym kept.frames) };

    ghost stores_on = { λ a b c address bytes kept then. record { lent = then.lent ∙ kept.lent; frames = then.frames ∙ ap (λ c. frames_written c b.tlb.now b.frames.now (Some (record { address = address; bytes = bytes }))) kept.cp0 ∙ ap (λ rows. frames_written a.cp0.now rows b.frames.now (Some (record { address = address; bytes = bytes }))) kept.rows ∙ ap (λ pages. frames_written a.cp0.now a.tlb.now pages (Some (record { address = address; bytes = bytes }))) kept.frames; rows = then.rows ∙ kept.rows; cp0 = then.cp0 ∙ kept.cp0 } };

    #[tactic(auto, unfolding(crate::specs::Memory::row_answers))]
    #[inline(always)]
    fn fetch(&mut self, va: u32) -> Result<u32, Exc> {
        let page = reached_page(self.frames, self.tlb, self.cp0, AccessKind::Fetch, va)?;
        Ok(LittleEndian::read_u32(self.frames.bytes_from(page, va)))
    }

    #[tactic(auto, unfolding(crate::specs::Memory::row_answers))]
    #[inline(always)]
    fn load(&mut self, va: u32, width: u8) -> Result<u32, Exc> {
        let page = reached_page(self.frames, self.tlb, self.cp0, AccessKind::Load, va)?;
        Ok(number_at(self.frames.bytes_from(page, va), width))
    }

    #[tactic(auto, unfolding(crate::specs::Memory::row_answers, crate::specs::Memory::frames_written))]
    #[inline(always)]
    fn store(&mut self, va: u32, width: u8, value: u32) -> Result<(), Exc> {
        let page = reached_page(self.frames, self.tlb, self.cp0, AccessKind::Store, va)?;
        let bytes = value.to_le_bytes();
        self.frames
            .put(page, va % PAGE_BYTES, &bytes[..usize::from(width)]);
        Ok(())
    }
}
