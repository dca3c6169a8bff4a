//! The board as a view of its world.
ghost use Rattle.std.specs.Prelude.{◌≡◌};

use crate::acts::next_act;
use crate::arriving::{arrival, page_left};
use crate::pages::{has_bound, owns, page_bytes};
use crate::timing::{is_living, pending, timer, verdict};
use aegis_calls::Board;
use aegis_limits::PAGE_SIZE;
use call_verdicts::CallView;
use external_event::PacketBytes;
use feed_telling::{Arrival, FeedView, NextAct};
use mips_exec::Cpu;
use revocation_book::Pending;
use world_model::{Call, Timer, Verdict};

/// A board between two phases, which is read to tell what the next one gives.
#[derive(Drop)]
pub struct BoardFeed<'a> {
    board: &'a Board,
}

impl<'a> BoardFeed<'a> {
    /// A board as it stands.
    pub fn of(board: &'a Board) -> BoardFeed<'a>
        ensures { result.board.now ≡ board.now }
    {
        BoardFeed { board }
    }
}

impl FeedView for BoardFeed<'_> {
    ghost use Rattle.board_model.specs.Showing.{world_of};

    ghost world = { λ v. world_of v.board.now };

    fn next_act(&self, runner: u8) -> NextAct {
        next_act(self.board, runner)
    }

    fn runner_registers(&self, runner: u8) -> &Cpu {
        self.board.registers(runner)
    }

    fn verdict(&self, runner: u8, call: Option<Call>) -> Verdict {
        verdict(self.board, runner, call)
    }

    fn timer(&self) -> Timer {
        timer(self.board)
    }

    fn is_living(&self, env: u8) -> bool {
        is_living(self.board, env)
    }

    fn pending(&self, env: u8) -> Option<Pending> {
        pending(self.board, env)
    }

    fn page_count(&self) -> u32 {
        self.board.page_count()
    }

    fn belongs_to(&self, env: u8, page: u32) -> bool {
        self.board.pages().belongs_to(page, env)
    }

    fn has_bound(&self, env: u8, page: u32) -> bool {
        has_bound(self.board.bindings(), env, page)
    }

    fn sees(&self, env: u8, page: u32) -> bool {
        owns(self.board.pages(), env, page) || has_bound(self.board.bindings(), env, page)
    }

    fn page_bytes(&self, page: u32) -> &[u8] {
        page_bytes(self.board, page)
    }

    fn arrival(&self, packet: &PacketBytes) -> Option<Arrival> {
        arrival(self.board.claims(), packet)
    }

    fn page_left(&self, packet: &PacketBytes) -> Option<[u8; PAGE_SIZE]> {
        page_left(self.board, packet)
    }

    fn line_owner(&self, line: u8) -> Option<u8> {
        self.board.line_owner(line)
    }

    fn quantum(&self) -> u32 {
        self.board.slots().quantum()
    }

    fn time(&self) -> u32 {
        self.board.time()
    }
}
