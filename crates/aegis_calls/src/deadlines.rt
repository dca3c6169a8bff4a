//! Deadlines: what is taken once they have come.
ghost use Rattle.std.specs.Prelude.{◌≡◌, ◌≤◌, ◌<◌, fold, length};
ghost use Rattle.revocation_book.specs.RevocationBook.{books_of};
ghost use Rattle.revocation_book.specs.Takings.{AreTakable, IsTakable};

use crate::board::Board;
use board_acts::copy_to_backup;
use kernel_journal::Row;
use revocation_book::{Taking, Takings, law_few_takings, law_takable};

impl Board {
    ghost use Rattle.board_model.specs.Doing.{after_deadlines, after_taking, with_deadlines_over};

    /// A page is taken by force: the backup gets a copy and is an ordinary page again, its owner finds the record, and the
    /// page is nobody's.
    pub(crate) fn take(&mut self, taking: Taking)
        requires may { IsTakable (books_of self.old.pages self.old.revocations) self.old.time taking }
        requires room { 0 < self.old.ledger.spare }
        ensures { self.new ≡ after_taking self.old taking }
    {
        let Taking { env, page, backup } = taking;
        copy_to_backup(&mut self.frames, page, backup);
        let frame = self.roster.frame(env);
        frame.record(&mut self.frames, page, backup);
        let _used = self.revocations.backup(env);
        self.pages.release(page);
        self.bindings.break_page(page, None);
        self.machine.tlb.drop_page(page);
        self.claims.drop_page(page);
        self.journal.push(Row::Take {
            time: self.time.ticks(),
            env,
            page,
            backup,
        });
    }

    /// These pages are taken, one after another.
    fn take_all(&mut self, takings: &Takings)
        requires may { AreTakable (books_of self.old.pages self.old.revocations) self.old.time takings.now }
        requires room { length takings.now ≤ self.old.ledger.spare }
        ensures { self.new ≡ fold after_taking self.old takings.now }
    {
        for place in 0..takings.len() {
            self.law_sound();
            self.take(takings.get(place));
        }
    }

    /// What is taken at deadlines that have come is taken, and these deadlines are over. Apart from the tick, since it
    /// needs room for a list of pages that few ticks use.
    #[cold]
    #[inline(never)]
    fn take_due(&mut self)
        requires { length self.old.pages ≤ self.old.ledger.spare }
        ensures { self.new ≡ after_deadlines self.old }
    {
        law_takable();
        law_few_takings();
        let envs = self.roster.len() as u8;
        let takings = self
            .revocations
            .takings(&self.pages, envs, self.time.ticks());
        self.take_all(&takings);
        self.revocations.served(self.time.ticks());
    }

    /// The deadlines that have come are over.
    pub(crate) fn settle_deadlines(&mut self)
        ensures { self.new ≡ with_deadlines_over self.old }
    {
        self.revocations.served(self.time.ticks());
    }

    /// The same, in a tick of which few have a deadline: where none has come, nothing is done.
    pub(crate) fn serve_deadlines(&mut self)
        requires { length self.old.pages ≤ self.old.ledger.spare }
        ensures { self.new ≡ after_deadlines self.old }
    {
        if self.revocations.is_due(self.time.ticks()) {
            self.take_due();
        }
    }
}
