//! The page that instructions are fetched from.
ghost use Rattle.std.specs.Prelude.{◌≡◌, ◌%◌, Ok, true, length, IfNone, IfSome, IsErr};
ghost use Rattle.aegis_limits.specs.Limits.{page_size};
ghost use Rattle.mips_exec.specs.Step.{fetched};
ghost use Rattle.r3k_machine.specs.Code.{IsCode, has};
ghost use Rattle.r3k_machine.specs.Memory.{row_answers};

use crate::translation::reached_page;
use aegis_limits::PAGE_BYTES;
use frame_store::Frames;
use mips_exec::AccessKind;
use r3k_cp0::Cp0;
use r3k_tlb::Tlb;

/// A page of physical memory that instructions are fetched from.
#[derive(Clone, Copy)]
pub(crate) struct CodePage {
    /// The address of its first byte, as the program sees it.
    pub base: u32,
    /// The number of the page in physical memory.
    pub page: u32,
}

impl CodePage {
    /// The page of an address that may be fetched from.
    #[tactic(auto, unfolding(crate::specs::Memory::row_answers))]
    #[inline(always)]
    pub fn at(frames: &Frames, tlb: &Tlb, cp0: &Cp0, address: u32) -> Option<CodePage>
        ensures code { IfSome result (λ c. IsCode cp0.now tlb.now frames.now c) }
        ensures has { IfSome result (λ c. has c address ≡ true) }
        ensures none { IfNone result (IsErr (fetched (row_answers cp0.now tlb.now frames.now) address)) }
    {
        if address % 4 != 0 {
            return None;
        }
        match reached_page(frames, tlb, cp0, AccessKind::Fetch, address) {
            Ok(page) => Some(CodePage {
                base: address - address % PAGE_BYTES,
                page,
            }),
            Err(_) => None,
        }
    }

    /// Whether the address is one of a word in the page: how far it is behind the first byte has none of the bits that are
    /// past the page or within a word.
    #[inline(always)]
    pub fn has(self, address: u32) -> bool
        requires { self.base % page_size ≡ 0 }
        ensures { result ≡ has self address }
    {
        let place = address.wrapping_sub(self.base);
        place - place % PAGE_BYTES + place % 4 == 0
    }

    /// The word at an address in the page.
    #[tactic(auto, unfolding(crate::specs::Memory::row_answers))]
    #[inline(always)]
    pub fn word(self, frames: &Frames, tlb: &Tlb, cp0: &Cp0, address: u32) -> u32
        requires code { IsCode cp0.now tlb.now frames.now self }
        requires has { has self address ≡ true }
        ensures { (row_answers cp0.now tlb.now frames.now).fetch address ≡ Ok result }
    {
        frames.word(self.page, address.wrapping_sub(self.base))
    }
}
