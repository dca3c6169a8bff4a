//! A count of steps. The kit's ledger counts without bytes at run time: a blank opens a book, whose total begins at 0,
//! and a share, which has the right to add to it. Each step adds one to the total, which contracts see as the value of
//! `Steps`; nothing takes from it. It is the kit's ledger, and has nothing to do with that of the kernel.
ghost use Rattle.std.specs.Prelude.{◌≡◌, ◌<◌, ◌+◌};

use std::marker::Model;
use std::sync::ledger::{
    Blank as StepBlank, Book as StepBook, Ledger as StepLedger, Share as StepShare,
};

/// How many steps were taken. It takes no bytes at run time, and `tick` alone changes it.
#[derive(Drop)]
pub struct Steps<L: StepLedger> {
    book: StepBook<L>,
    share: StepShare<L>,
}

impl<L: StepLedger> Model for Steps<L> {
    ghost use Rattle.std.specs.Prelude.{ℕ, ◌<◌};

    ghost Value = { ℕ };

    ghost view = { λ s. s.book.total };

    ghost invariant = { λ s. 0 < s.share.parts };
}

impl<L: StepLedger> Steps<L> {
    /// No step so far. The blank is that of the ledger.
    pub fn new(blank: StepBlank) -> Steps<L>
        requires name { blank.name ≡ L.name }
        requires parts { blank.parts ≡ L.parts }
        requires some { 0 < L.parts }
        ensures { result ≡ 0 }
    {
        let (book, share) = blank.open();
        Steps { book, share }
    }

    /// Takes a step.
    pub fn tick(&mut self)
        ensures { self.new ≡ self.old + 1 }
    {
        self.book.add(&mut self.share, 1);
    }
}
