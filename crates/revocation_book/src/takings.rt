//! What is taken at a time.
ghost use Rattle.std.specs.Prelude.{◌≡◌, ◌<◌, ◌+◌, ◌++◌, [], ◌∷◌, length, drop, slice_get, Some};
ghost use Rattle.aegis_limits.specs.Limits.{most_pages};
ghost use Rattle.revocation_book.specs.TakingRow.{taking_in};

use crate::revocation::Taking;
use aegis_limits::MOST_PAGES;
use std::marker::Model;

/// The most pages that are taken at a time: all that there may be.
const MOST_TAKINGS: usize = MOST_PAGES as usize;

/// A taking in eight bytes: a list of as many as there are pages is cleared for each tick with a deadline.
#[derive(Clone, Copy, Default)]
pub(crate) struct TakingRow {
    backup: u32,
    page: u16,
    env: u8,
    has_backup: bool,
}

impl TakingRow {
    /// The row of a taking.
    fn of(taking: Taking) -> TakingRow
        requires { taking.page < most_pages }
        ensures { taking_in result ≡ taking }
    {
        TakingRow {
            backup: taking.backup.unwrap_or(0),
            page: taking.page as u16,
            env: taking.env,
            has_backup: taking.backup.is_some(),
        }
    }

    /// The taking of a row.
    fn taking(self) -> Taking
        ensures { result ≡ taking_in self }
    {
        Taking {
            env: self.env,
            page: self.page as u32,
            backup: if self.has_backup {
                Some(self.backup)
            } else {
                None
            },
        }
    }
}

/// What is taken at a time, in its order: as many pages as there may be, at most.
#[derive(Drop)]
pub struct Takings {
    rows: [TakingRow; MOST_TAKINGS],
    len: u32,
}

impl Model for Takings {
    ghost use Rattle.std.specs.Prelude.{◌≤◌, List, length, map, take};
    ghost use Rattle.revocation_book.specs.declared.revocation.Taking.{Taking as Taken};
    ghost use Rattle.revocation_book.specs.TakingRow.{taking_in};

    ghost Value = { List Taken };

    ghost view = { λ t. map taking_in (take t.len t.rows) };

    ghost invariant = { λ t. t.len ≤ length t.rows };
}

impl Takings {
    /// Nothing is taken.
    pub(crate) fn new() -> Takings
        ensures { result ≡ [] }
    {
        Takings {
            rows: [TakingRow::default(); MOST_TAKINGS],
            len: 0,
        }
    }

    /// One more is taken, and is the last.
    pub(crate) fn push(&mut self, taking: Taking)
        requires room { length self.old < most_pages }
        requires page { taking.page < most_pages }
        ensures { self.new ≡ self.old ++ taking ∷ [] }
    {
        self.rows[self.len as usize] = TakingRow::of(taking);
        self.len += 1;
    }

    /// How many pages are taken.
    pub fn len(&self) -> u32
        ensures { result ≡ length self.now }
    {
        self.len
    }

    /// The taking at this place, of which the first is 0.
    pub fn get(&self, place: u32) -> Taking
        requires { place < length self.now }
        ensures at { slice_get self.now place ≡ Some result }
        ensures rest { drop place self.now ≡ result ∷ drop (place + 1) self.now }
    {
        self.rows[place as usize].taking()
    }
}
