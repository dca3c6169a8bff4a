//! What the layers above read of a board.
ghost use Rattle.std.specs.Prelude.{◌≡◌, ◌<◌, ◌≤◌, Some, OnOk, OnErr, IsOk, length, slice_get};
ghost use Rattle.std.specs.Option.{option_map};
ghost use Rattle.board_model.specs.Shown.{with_spare};
ghost use Rattle.kernel_journal.specs.Ledger.{spare_after};
ghost use Rattle.r3k_cp0.specs.Random.{first_random, random_end};
ghost use Rattle.tlb_model.specs.Cache.{fills_of};

use crate::board::Board;
use aegis_limits::{OutOfMemory, Version};
use bind_book::{Binding, Bindings};
use board_acts::{is_owned, page_behind, space_in};
use env_frames::{Context, Env};
use filter_tree::Claims;
use frame_store::Frames;
use guest_memory::guest_page;
use kernel_journal::Row;
use mips_exec::Cpu;
use page_book::Pages;
use r3k_tlb::Tlb;
use revocation_book::Revocations;
use slot_vector::Slots;
use tlb_model::Fills;
use world_model::{Life, MappedView, PageView, Runner, WorldView};

impl Board {
    ghost use Rattle.board_model.specs.Showing.{world_of};

    /// Physical memory.
    pub fn frames(&self) -> &Frames
        ensures { result.now ≡ self.now.frames }
    {
        &self.frames
    }

    /// The book of pages.
    pub fn pages(&self) -> &Pages
        ensures { result.now ≡ self.now.pages }
    {
        &self.pages
    }

    /// The book of bindings.
    pub fn bindings(&self) -> &Bindings
        ensures { result.now ≡ self.now.binds }
    {
        &self.bindings
    }

    /// The book of claims.
    pub fn claims(&self) -> &Claims
        ensures { result.now ≡ self.now.claims }
    {
        &self.claims
    }

    /// The book of revocations.
    pub fn revocations(&self) -> &Revocations
        ensures { result.now ≡ self.now.revocations }
    {
        &self.revocations
    }

    /// The vector of slots.
    pub fn slots(&self) -> &Slots
        ensures { result.now ≡ self.now.slots }
    {
        &self.slots
    }

    /// The frame of the environment of this number.
    pub fn env(&self, env: u8) -> &Env
        requires { env < length self.now.roster.list }
        ensures { option_map (λ x. x.env) (slice_get self.now.roster.list env) ≡ Some result.now }
    {
        &self.roster.at(env).env
    }

    /// The rows of the TLB.
    pub fn tlb(&self) -> &Tlb
        ensures { result.now ≡ self.now.tlb.rows }
    {
        &self.machine.tlb
    }

    /// The row that the next refill takes, from 8 to 63.
    pub fn random(&self) -> u8
        ensures row { result ≡ self.now.tlb.random }
        ensures least { first_random ≤ result }
        ensures within { result < random_end }
    {
        self.machine.random()
    }

    /// How often the environment of this number was refilled, and how many of its misses were forwarded.
    pub fn fills(&self, env: u8) -> Fills
        requires { env < length self.now.roster.list }
        ensures { result ≡ fills_of self.now.tlb.fills env }
    {
        self.fills[env as usize]
    }

    /// Takes memory for so many rows of the ledger more, where it isn't there yet. Nothing else changes, so
    /// that whatever may follow may follow.
    #[inline(always)]
    pub fn make_room(&mut self, rows: u32) -> Result<(), OutOfMemory>
        ensures room { OnOk result (rows ≤ self.new.ledger.spare) }
        ensures same { self.new ≡ with_spare self.old self.new.ledger.spare }
        ensures taken { OnOk result (self.new.ledger.spare ≡ spare_after self.old.ledger rows) }
        ensures world { world_of self.new ≡ world_of self.old }
        ensures there { rows ≤ self.old.ledger.spare → IsOk result × (self.new ≡ self.old) }
        ensures refused { OnErr result (self.new ≡ self.old) }
    {
        self.journal.room(rows)
    }
}

impl WorldView for Board {
    ghost use Rattle.board_model.specs.Showing.{world_of};

    ghost world = { world_of };

    fn version(&self) -> Version {
        self.bindings.version()
    }

    fn envs(&self) -> u8 {
        self.roster.len() as u8
    }

    fn time(&self) -> u32 {
        self.time.ticks()
    }

    fn name(&self, env: u8) -> [u8; 8] {
        self.roster.at(env).name
    }

    fn life(&self, env: u8) -> Life {
        self.roster.at(env).life
    }

    fn cpu(&self, env: u8) -> Cpu {
        if self.slots.runner() == Some(env) {
            self.machine.cpu
        } else {
            self.roster.at(env).env.kept()
        }
    }

    fn mask(&self, env: u8) -> u32 {
        self.roster.frame(env).accept()
    }

    fn handler(&self, env: u8, context: Context) -> u32 {
        self.roster.frame(env).handler(context)
    }

    fn console(&self, env: u8) -> &[u8] {
        self.roster.console(env).bytes()
    }

    fn sent_count(&self, env: u8) -> usize {
        self.roster.sent(env).len()
    }

    fn sent_packet(&self, env: u8, place: usize) -> Option<&[u8]> {
        self.roster.sent(env).packet(place)
    }

    fn kept_count(&self, env: u8) -> usize {
        self.roster.frame(env).mappings().len()
    }

    fn kept_page(&self, env: u8, place: usize) -> Option<PageView<'_>> {
        let mappings = self.roster.frame(env).mappings();
        if place >= mappings.len() {
            return None;
        }
        Some(page_behind(&self.frames, mappings[place]))
    }

    fn page_count(&self) -> u32 {
        self.pages.pages()
    }

    fn owned_page(&self, env: u8, page: u32) -> Option<&[u8]> {
        let row = self.pages.row(page)?;
        if is_owned(row, env) {
            Some(self.frames.page(page))
        } else {
            None
        }
    }

    fn binding(&self, env: u8, row: u32) -> Option<Binding> {
        self.bindings.in_row(env, row)
    }

    fn sight(&self, env: u8, vpn: u32) -> Option<MappedView<'_>> {
        let space = space_in(&self.roster, &self.bindings, env);
        guest_page(&self.frames, &space, vpn)
    }

    fn runner(&self) -> Option<u8> {
        self.slots.runner()
    }

    fn running(&self) -> Option<Runner> {
        self.slots.running()
    }

    fn slot(&self) -> u32 {
        self.slots.slot()
    }

    fn excess(&self, env: u8) -> u32 {
        self.slots.excess(env)
    }

    fn journal(&self) -> &[Row] {
        self.journal.rows()
    }
}
