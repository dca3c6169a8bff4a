//! The deadlines that have come, served page by page, for whoever looks at the board in between.
ghost use Rattle.std.specs.Prelude.{◌≡◌, ◌≤◌, ◌<◌, ◌+◌, ◌∷◌, [], length};
ghost use Rattle.revocation_book.specs.Takings.{AreTakable, IsTakable};
ghost use Rattle.world_model.specs.Book.{is_idle_book};
ghost use Rattle.world_model.specs.Deadlines.{settles, takes, takings as takings_of};
ghost use Rattle.world_model.specs.PageCalls.{revocations as books_seen};
ghost use Rattle.world_model.specs.World.{after};
ghost use Rattle.tlb_course.specs.Emptying.{taking_flush};
ghost use Rattle.tlb_model.specs.Flushes.{flushed_all};
ghost use Rattle.board_model.specs.Ticks.{IsSameTick};

use crate::board::Board;
use board_model::law_taking;
use revocation_book::{Taking, Takings, law_few_takings, law_takable};

impl Board {
    ghost use Rattle.board_model.specs.Doing.{with_deadlines_over};
    ghost use Rattle.board_model.specs.Showing.{world_of};

    /// What is taken next at deadlines that have come.
    pub fn takings(&self) -> Takings
        ensures takings { result ≡ takings_of (world_of self.now) }
        ensures may { AreTakable (books_seen (world_of self.now).book) self.now.time result }
        ensures few { length result ≤ (world_of self.now).book.page_count }
    {
        law_takable();
        law_few_takings();
        let envs = self.roster.len() as u8;
        self.revocations
            .takings(&self.pages, envs, self.time.ticks())
    }

    /// A page is taken by force.
    pub fn take_page(&mut self, taking: Taking)
        requires may { IsTakable (books_seen (world_of self.old).book) self.old.time taking }
        requires room { 0 < self.old.ledger.spare }
        ensures world { world_of self.new ≡ after (world_of self.old) (takes taking (world_of self.old)) }
        ensures tlb { self.new.tlb ≡ flushed_all (taking_flush taking ∷ []) self.old.tlb }
        ensures idle { is_idle_book (world_of self.new).book ≡ is_idle_book (world_of self.old).book }
        ensures same { IsSameTick self.old self.new }
        ensures room { self.old.ledger.spare ≤ self.new.ledger.spare + 1 }
    {
        self.law_sound();
        law_taking();
        self.take(taking);
    }

    /// The deadlines that have come are over.
    pub fn end_deadlines(&mut self)
        ensures world { world_of self.new ≡ after (world_of self.old) (settles (world_of self.old)) }
        ensures tlb { self.new.tlb ≡ self.old.tlb }
        ensures idle { is_idle_book (world_of self.new).book ≡ is_idle_book (world_of self.old).book }
        ensures same { IsSameTick self.old self.new }
        ensures ledger { self.new.ledger ≡ self.old.ledger }
    {
        law_taking();
        self.settle_deadlines();
    }
}
