//! How many pages each environment owns.
ghost use Rattle.std.specs.Prelude.{◌≡◌, ◌<◌, ◌≤◌, ℕ, replicate, slice_index_or};
ghost use Rattle.aegis_limits.specs.Limits.{environment_numbers, most_pages};
ghost use Rattle.page_book.specs.PageSet.{one_if};
ghost use Rattle.page_book.specs.Row.{is_owned_by};
ghost use Rattle.page_book.specs.Tallies.{Gains};

use crate::row::PageRow;
use aegis_limits::ENVIRONMENT_NUMBERS;
use std::marker::Model;

/// How many pages each environment owns, without those that are guaranteed to it.
#[derive(Drop)]
pub(crate) struct Holdings {
    counts: [u32; ENVIRONMENT_NUMBERS],
}

impl Model for Holdings {
    ghost use Rattle.std.specs.Prelude.{ℕ, List};

    ghost Value = { List ℕ };

    ghost view = { λ h. h.counts };
}

impl Holdings {
    /// Nobody owns a page.
    pub(crate) fn new() -> Holdings
        ensures { result ≡ replicate environment_numbers 0 }
    {
        Holdings {
            counts: [0; ENVIRONMENT_NUMBERS],
        }
    }

    /// How many pages the environment owns.
    pub(crate) fn count(&self, env: u8) -> u32
        requires { env < environment_numbers }
        ensures { result ≡ slice_index_or self.now env 0 }
    {
        self.counts[env as usize]
    }

    /// A page has this row, and with it maybe an owner.
    pub(crate) fn gain(&mut self, row: PageRow)
        requires { (e : ℕ) → e < environment_numbers → slice_index_or self.old e 0 ≤ most_pages }
        ensures { Gains row self.old self.new }
    {
        if let PageRow::Owned { owner, .. } = row {
            let owner = owner as usize;
            if owner < ENVIRONMENT_NUMBERS {
                self.counts[owner] += 1;
            }
        }
    }

    /// A page hasn't this row any more.
    pub(crate) fn lose(&mut self, row: PageRow)
        requires { (e : ℕ) → e < environment_numbers → one_if (is_owned_by e row) ≤ slice_index_or self.old e 0 }
        ensures { Gains row self.new self.old }
    {
        if let PageRow::Owned { owner, .. } = row {
            let owner = owner as usize;
            if owner < ENVIRONMENT_NUMBERS {
                self.counts[owner] -= 1;
            }
        }
    }
}
