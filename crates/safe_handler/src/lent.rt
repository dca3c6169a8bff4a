//! A handler's memory as the processor sees it.
ghost use Rattle.std.specs.Prelude.{◌≡◌};
ghost use Rattle.mips_exec.specs.Step.{cpu_after, outcome_of, step_of, view_of, write_after};
ghost use Rattle.handler_rules.specs.Memory.{answers_of, page_after};

use crate::memory::{PAGE_START, bytes_at, readable_at};
use aegis_limits::PAGE_SIZE;
use byte_numbers::number_at;
use mips_exec::{Cpu, Exc, ExcCode, Outcome};
use mips_step::{Bus, step_user};

/// The words of a handler and a packet, and the ring page, lent for its accesses.
#[derive(Drop)]
struct HandlerBus<'a> {
    words: &'a [u32],
    packet: &'a [u8],
    page: &'a mut [u8; PAGE_SIZE],
}

impl Bus for HandlerBus<'_> {
    ghost use Rattle.std.proofs.Common.{refl, sym, ◌∙◌, ap};
    ghost use Rattle.handler_rules.specs.Memory.{answers_of, stored};
    ghost use Rattle.safe_handler.specs.Lent.{IsKept, IsStored};

    ghost answers = { λ b. answers_of b.words.now b.packet.now b.page.now };

    ghost Kept = { IsKept };

    ghost Stored = { IsStored };

    ghost keeps_itself = { λ b. record { lent = refl; words = refl; packet = refl; page = refl } };

    ghost keeps_on = { λ a b c first then. record { lent = then.lent ∙ first.lent; words = then.words ∙ first.words; packet = then.packet ∙ first.packet; page = then.page ∙ first.page } };

    ghost keeps_answers = { λ a b kept. ap (λ words. answers_of words a.packet.now a.page.now) (sym kept.words) ∙ ap (λ packet. answers_of b.words.now packet a.page.now) (sym kept.packet) ∙ ap (answers_of b.words.now b.packet.now) (sym kept.page) };

    ghost stores_on = { λ a b c address bytes kept then. record { lent = then.lent ∙ kept.lent; words = then.words ∙ kept.words; packet = then.packet ∙ kept.packet; page = then.page ∙ ap (λ page. stored page address bytes) kept.page } };

    fn fetch(&mut self, va: u32) -> Result<u32, Exc> {
        match self.words.get((va / 4) as usize) {
            Some(word) => Ok(*word),
            None => Err(Exc::plain(ExcCode::Ibe)),
        }
    }

    fn load(&mut self, va: u32, width: u8) -> Result<u32, Exc> {
        match readable_at(self.packet, &self.page[..], va, u32::from(width)) {
            Some(bytes) => Ok(number_at(bytes, width)),
            None => Err(Exc::plain(ExcCode::Dbe)),
        }
    }

    fn store(&mut self, va: u32, width: u8, value: u32) -> Result<(), Exc> {
        if bytes_at(PAGE_START, &self.page[..], va, u32::from(width)).is_none() {
            return Err(Exc::plain(ExcCode::Dbe));
        }
        let place = (va - PAGE_START) as usize;
        let bytes = value.to_le_bytes();
        let width = usize::from(width);
        let page = &mut self.page[..];
        page[place..place + width].copy_from_slice(&bytes[..width]);
        Ok(())
    }
}

/// One step of a handler: its fetch, load and store reach its words, the packet and the ring page.
pub(crate) fn step_machine(
    words: &[u32],
    packet: &[u8],
    cpu: &mut Cpu,
    page: &mut [u8; PAGE_SIZE],
) -> Outcome
    ensures cpu { cpu.new ≡ cpu_after cpu.old (step_of cpu.old (view_of (answers_of words.now packet.now page.old) cpu.old)) }
    ensures outcome { result ≡ outcome_of (step_of cpu.old (view_of (answers_of words.now packet.now page.old) cpu.old)) }
    ensures page { page.new ≡ page_after page.old (write_after (step_of cpu.old (view_of (answers_of words.now packet.now page.old) cpu.old))) }
{
    let mut bus = HandlerBus {
        words,
        packet,
        page,
    };
    step_user(cpu, &mut bus)
}
