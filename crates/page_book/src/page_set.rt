//! A set of pages whose lowest one is found at once, however many pages there are.
ghost use Rattle.std.specs.Prelude.{◌≡◌, ◌<◌, ◌≤◌, ◌+◌, ◌%◌, ◌==◌, ℕ, nat_lt, if◌then◌else◌};
ghost use Rattle.aegis_limits.specs.Limits.{most_pages};
ghost use Rattle.page_book.specs.PageSet.{IsLeast, mark, one_if};

use aegis_limits::MOST_PAGES;
use std::marker::Model;

/// The pages of a word.
const WORD_PAGES: u32 = 64;

/// The words of a set.
const WORDS: usize = (MOST_PAGES / WORD_PAGES) as usize;

/// A set of pages, with a bit for each.
#[derive(Drop)]
pub(crate) struct PageSet {
    words: [u64; WORDS],
    /// A bit for each word that isn't 0.
    filled: u64,
}

impl Model for PageSet {
    ghost use Rattle.std.specs.Prelude.{◌≡◌, ◌<◌, ◌==◌, ℕ, List, not, slice_index_or};
    ghost use Rattle.std.specs.Int.{bit_at};
    ghost use Rattle.page_book.specs.PageSet.{one_if};

    ghost Value = { List ℕ };

    ghost view = { λ s. s.words };

    ghost invariant = { λ s. (i : ℕ) → i < 64 → bit_at s.filled i ≡ one_if (not (slice_index_or s.words i 0 == 0)) };
}

impl PageSet {
    /// The pages below a number.
    pub(crate) fn first_pages(count: u32) -> PageSet
        requires { count ≤ most_pages }
        ensures { (k : ℕ) → mark result k ≡ one_if (nat_lt k count) }
    {
        let mut set = PageSet {
            words: [0; WORDS],
            filled: 0,
        };
        for page in 0..count {
            set.put(page, true);
        }
        set
    }

    /// The page is in the set from now on, or isn't.
    pub(crate) fn put(&mut self, page: u32, is_in: bool)
        requires { page < most_pages }
        ensures { (k : ℕ) → mark self.new k ≡ (if k == page then one_if is_in else mark self.old k) }
    {
        if self.contains(page) != is_in {
            self.toggle(page);
        }
    }

    /// The lowest page of the set, if there is one.
    pub(crate) fn first(&self) -> Option<u32>
        ensures { IsLeast self.now result }
    {
        if self.filled == 0 {
            return None;
        }
        let place = self.filled.trailing_zeros();
        let bit = self.words[place as usize].trailing_zeros();
        Some(WORD_PAGES * place + bit)
    }

    /// Whether the page is in the set.
    fn contains(&self, page: u32) -> bool
        requires { page < most_pages }
        ensures { one_if result ≡ mark self.now page }
    {
        let word = self.words[(page / WORD_PAGES) as usize];
        word >> (page % WORD_PAGES) & 1 == 1
    }

    /// The page is in the set if it wasn't, and isn't if it was.
    fn toggle(&mut self, page: u32)
        requires { page < most_pages }
        ensures { (k : ℕ) → mark self.new k ≡ (mark self.old k + one_if (k == page)) % 2 }
    {
        let place = page / WORD_PAGES;
        let old = self.words[place as usize];
        let new = old ^ 1 << (page % WORD_PAGES);
        self.words[place as usize] = new;
        if (old == 0) != (new == 0) {
            self.filled ^= 1 << place;
        }
    }
}
