//! What the kernel reads of a board to decide on a call.
ghost use Rattle.std.specs.Prelude.{◌≡◌, Some};

use crate::board::Board;
use aegis_limits::Version;
use board_acts::space_in;
use call_verdicts::CallView;
use env_frames::Context;
use filter_core::Filter;
use filter_tree::ClaimNo;
use guest_memory::guest_range;
use mips_exec::Cpu;
use page_book::PageRow;
use revocation_book::LoadNo;
use world_model::{Code, Hold, Life};

impl CallView for Board {
    ghost use Rattle.board_model.specs.Showing.{world_of};

    ghost world = { world_of };

    fn registers(&self, _env: u8) -> &Cpu {
        &self.machine.cpu
    }

    fn console_size(&self, env: u8) -> usize {
        self.roster.console(env).len()
    }

    fn count_sent(&self, env: u8) -> usize {
        self.roster.sent(env).len()
    }

    fn refuse_claim(&self, env: u8, filter: &Filter) -> Option<ClaimNo> {
        self.claims.refusal(env, filter)
    }

    fn refuse_load(&self, env: u8, page: u32) -> Option<LoadNo> {
        self.revocations.load_refusal(env, page)
    }

    fn next_claim(&self) -> u32 {
        self.claims.next() as u32
    }

    fn has_claim(&self, env: u8, claim: u32) -> bool {
        self.claims.held(env, claim).is_some()
    }

    fn range(&self, env: u8, address: u32, size: u32) -> Option<&[u8]> {
        let space = space_in(&self.roster, &self.bindings, env);
        guest_range(&self.frames, &space, address, size)
    }

    fn is_guaranteed(&self, env: u8, vpn: u32) -> bool {
        self.roster.frame(env).guaranteed(vpn).is_some()
    }

    fn is_bound(&self, env: u8, vpn: u32) -> bool {
        self.bindings.find(env, vpn).is_some()
    }

    fn page_row(&self, page: u32) -> Option<PageRow> {
        self.pages.row(page)
    }

    fn version(&self) -> Version {
        self.bindings.version()
    }

    fn richest(&self, env: u8) -> Option<u8> {
        self.revocations.richest(&self.pages, env)
    }

    fn lowest_free(&self) -> Option<u32> {
        self.pages.lowest_free()
    }

    fn slot(&self, slot: u32) -> Option<Option<Hold>> {
        self.slots.hold(slot)
    }

    fn refuse_gift(&self, later: bool) -> Option<Code> {
        match self.slots.may_donate(later) {
            Ok(()) => None,
            Err(why) => Some(why),
        }
    }

    fn line_owner(&self, line: u8) -> Option<u8> {
        self.lines.owner(line)
    }

    fn life_at(&self, number: u32) -> Option<Life> {
        self.roster.life(number)
    }

    fn mask(&self, env: u8) -> u32 {
        self.roster.frame(env).accept()
    }

    fn handler(&self, env: u8, context: Context) -> u32 {
        self.roster.frame(env).handler(context)
    }

    fn free_pages(&self) -> u32 {
        self.pages.free_count()
    }

    fn page_count(&self) -> u32 {
        self.pages.pages()
    }

    fn env_count(&self) -> u32 {
        self.roster.len() as u32
    }

    fn slot_count(&self) -> u32 {
        self.slots.slots()
    }

    fn quantum(&self) -> u32 {
        self.slots.quantum()
    }

    fn excess(&self, env: u8) -> u32 {
        self.slots.excess(env)
    }

    fn time(&self) -> u32 {
        self.time.ticks()
    }
}
