//! The board and what it shows.

use aegis_limits::ENVIRONMENT_NUMBERS;
use bind_book::Bindings;
use board_model::{Clock, Lines, Roster};
use filter_tree::Claims;
use frame_store::Frames;
use kernel_journal::Journal;
use page_book::Pages;
use r3k_machine::Machine;
use revocation_book::Revocations;
use slot_vector::Slots;
use std::marker::Model;
use tlb_model::Fills;

/// The machine, the environments on it, and the kernel's books.
#[derive(Drop)]
pub struct Board {
    pub(crate) frames: Frames,
    pub(crate) pages: Pages,
    pub(crate) bindings: Bindings,
    pub(crate) lines: Lines,
    pub(crate) claims: Claims,
    pub(crate) revocations: Revocations,
    pub(crate) slots: Slots,
    pub(crate) machine: Machine,
    pub(crate) roster: Roster,
    pub(crate) time: Clock,
    pub(crate) journal: Journal,
    pub(crate) fills: [Fills; ENVIRONMENT_NUMBERS],
}

impl Model for Board {
    ghost use Rattle.board_model.specs.Shown.{Shown};
    ghost use Rattle.board_model.specs.Sound.{IsSoundBoard};

    ghost Value = { Shown };

    ghost view = { λ b. record { frames = b.frames; pages = b.pages; binds = b.bindings; lines = b.lines; claims = b.claims; revocations = b.revocations; slots = b.slots; cpu = b.machine.cpu; roster = b.roster; time = b.time; ledger = b.journal; tlb = record { rows = b.machine.tlb; random = b.machine.cp0.random; fills = b.fills } } };

    ghost invariant = { λ b. IsSoundBoard (record { frames = b.frames; pages = b.pages; binds = b.bindings; lines = b.lines; claims = b.claims; revocations = b.revocations; slots = b.slots; cpu = b.machine.cpu; roster = b.roster; time = b.time; ledger = b.journal; tlb = record { rows = b.machine.tlb; random = b.machine.cp0.random; fills = b.fills } }) };
}

impl Board {
    ghost use Rattle.board_model.specs.Showing.{world_of};
    ghost use Rattle.board_model.specs.Sound.{IsSoundBoard};
    ghost use Rattle.aegis_calls.specs.Living.{AreOfLiving};

    /// Law: a board is sound. What reads no part of it knows that by this alone.
    pub fn law_sound(&self)
        ensures { IsSoundBoard self.now }
    {
        let _ = &self.time;
    }

    /// Law: no row of the TLB outlives its mapping. Each is emptied, or holds one that a living environment has in the world.
    pub fn law_no_row_outlives(&self)
        ensures { AreOfLiving (world_of self.now) self.now.tlb.rows }
    {
        self.law_sound();
    }
}
