//! The board before it runs: without programs, and with one more.
ghost use Rattle.std.specs.Prelude.{◌≡◌, ◌≤◌, ◌<◌, ◌+◌, ◌-◌, IfOk, IfSome, All, length};
ghost use Rattle.boot_image.specs.ImageValue.{guaranteed_mappings};
ghost use Rattle.aegis_limits.specs.Limits.{least_pages, most_pages, least_quantum, most_quantum, most_slots};
ghost use Rattle.aegis_limits.specs.VersionLimits.{most_environments_of};
ghost use Rattle.page_book.specs.Rows.{free_pages};
ghost use Rattle.run_model.specs.Boot.{bare_world, with_program};
ghost use Rattle.board_model.specs.Showing.{world_of};
ghost use Rattle.tlb_model.specs.Cache.{boot_cache};

use crate::board::Board;
use aegis_limits::{ENVIRONMENT_NUMBERS, OutOfMemory, Version, law_versions_are_within};
use board_boot::{bare_memory, boot_journal, load};
use board_model::{Clock, Lines, Roster};
use boot_image::Program;
use filter_tree::Claims;
use r3k_machine::Machine;
use revocation_book::Revocations;
use slot_vector::Slots;
use std::alloc::Global;
use tlb_model::Fills;

impl Board {
    ghost use Rattle.board_model.specs.Loading.{IsBare};

    /// A board without programs, for an image of this version, with so many pages of memory, a quantum in ticks, the owner of each slot,
    /// and room for so many environments (`docs/KERNEL.md`, "Boot"). It takes the memory for all that the
    /// environments may need, so that neither `add` nor the parts of a tick take any.
    pub fn build(
        alloc: Global,
        version: Version,
        pages: u32,
        quantum: u32,
        slots: &[Option<u8>],
        envs: u8,
    ) -> Result<Board, OutOfMemory>
        requires pages { least_pages ≤ pages × pages ≤ most_pages }
        requires quantum { least_quantum ≤ quantum × quantum ≤ most_quantum }
        requires slots { 1 ≤ length slots.now × length slots.now ≤ most_slots }
        requires envs { envs ≤ most_environments_of version }
        requires owners { All (λ owner. IfSome owner (λ e. e < envs)) slots.now }
        ensures world { IfOk result (λ b. world_of b ≡ bare_world version pages quantum slots.now) }
        ensures bare { IfOk result (IsBare pages envs) }
        ensures tlb { IfOk result (λ b. b.tlb ≡ boot_cache) }
        ensures numbers { IfOk result (λ b. b.claims.next ≡ 0) }
    {
        law_versions_are_within();
        let (frames, pages, bindings) = bare_memory(alloc, version, pages, envs)?;
        let claims = Claims::new(alloc, envs)?;
        let roster = Roster::new(alloc, envs)?;
        let journal = boot_journal(alloc, slots)?;
        Ok(Board {
            frames,
            pages,
            bindings,
            lines: Lines::new(),
            claims,
            revocations: Revocations::new(),
            slots: Slots::new(quantum, slots),
            machine: Machine::new(),
            roster,
            time: Clock::new(),
            journal,
            fills: [Fills::none(); ENVIRONMENT_NUMBERS],
        })
    }

    /// Makes the next environment, which has a program's pages and stands at its entry. It needs room for
    /// it, and as many free pages as it has.
    pub fn add(&mut self, program: &Program<'_>)
        requires room { 0 < self.old.roster.spare }
        requires pages { guaranteed_mappings program.now ≤ free_pages self.old.pages }
        ensures world { world_of self.new ≡ with_program (world_of self.old) program.now }
        ensures free { free_pages self.old.pages ≡ free_pages self.new.pages + guaranteed_mappings program.now }
        ensures spare { self.new.roster.spare ≡ self.old.roster.spare - 1 }
        ensures pages { length self.new.frames ≡ length self.old.frames }
        ensures tlb { self.new.tlb ≡ self.old.tlb }
        ensures numbers { self.new.claims.next ≡ self.old.claims.next }
    {
        let number = self.roster.len() as u8;
        let env = load(&mut self.frames, &mut self.pages, number, program);
        self.roster.push(program.name, env);
    }
}
