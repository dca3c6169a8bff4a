//! The book of pages.
ghost use Rattle.std.specs.Prelude.{◌≡◌, ◌<◌, ◌≤◌, ◌+◌, false, length, replicate, map, slice_get, slice_set, IsNone, IsSome, IsOk, OnOk, IfOk};
ghost use Rattle.std.specs.Option.{ok_or};
ghost use Rattle.aegis_limits.specs.Limits.{environment_numbers, least_pages, most_pages};
ghost use Rattle.page_book.specs.declared.row.PageRow.TheVariants.{Free, Guaranteed, Owned};
ghost use Rattle.page_book.specs.declared.refusal.PageNo.TheVariants.{NoneFree};
ghost use Rattle.page_book.specs.PageSet.{one_if};
ghost use Rattle.page_book.specs.Row.{belongs_to, is_free, is_guaranteed, owner_of, alloc_refusal, change_refusal, bind_refusal, released, unless};
ghost use Rattle.page_book.specs.Rows.{row_in, first_free, free_pages, owned_pages, given, changed_unless};

use crate::holdings::Holdings;
use crate::page_set::PageSet;
use crate::refusal::PageNo;
use crate::row::{Capabilities, PageRow};
use aegis_limits::OutOfMemory;
use std::alloc::Global;
use std::marker::Model;

/// Whose each page of physical memory is: from `LEAST_PAGES` to `MOST_PAGES` pages, numbered from 0.
#[derive(Drop)]
pub struct Pages {
    rows: Vec<PageRow>,
    /// The free pages.
    free: PageSet,
    /// How many pages are free.
    free_count: u32,
    /// How many pages each environment owns, without its guaranteed ones.
    owned: Holdings,
}

impl Model for Pages {
    ghost use Rattle.std.specs.Prelude.{List};
    ghost use Rattle.page_book.specs.declared.row.PageRow.{PageRow as Row};
    ghost use Rattle.page_book.specs.Tallies.{IsTallied};

    ghost Value = { List Row };

    ghost view = { λ p. p.rows.items };

    ghost invariant = { λ p. IsTallied p.rows.items p.free p.free_count p.owned };
}

impl Pages {
    /// So many free pages, from `LEAST_PAGES` to `MOST_PAGES`. An `Err` says that there is no memory for the book.
    pub fn new(alloc: Global, pages: u32) -> Result<Pages, OutOfMemory>
        requires enough { least_pages ≤ pages }
        requires within { pages ≤ most_pages }
        ensures { IfOk result (λ p. p ≡ replicate pages Free) }
    {
        let rows = vec![in alloc; PageRow::Free; pages as usize]?;
        Ok(Pages {
            rows,
            free: PageSet::first_pages(pages),
            free_count: pages,
            owned: Holdings::new(),
        })
    }

    /// How many pages there are, from `LEAST_PAGES` to `MOST_PAGES`.
    pub fn pages(&self) -> u32
        ensures count { result ≡ length self.now }
        ensures least { least_pages ≤ result }
        ensures most { result ≤ most_pages }
    {
        self.rows.len() as u32
    }

    /// The row of the page; none where there is no page of this number.
    pub fn row(&self, page: u32) -> Option<PageRow>
        ensures { result ≡ slice_get self.now page }
    {
        self.rows.get(page as usize).copied()
    }

    /// The row of a page that is there.
    fn row_there(&self, page: u32) -> PageRow
        requires { page < length self.now }
        ensures { result ≡ row_in self.now page }
    {
        self.rows[page as usize]
    }

    /// The environment whose page it is, guaranteed or not; none if it is free.
    pub fn owner(&self, page: u32) -> Option<u8>
        requires { page < length self.now }
        ensures { result ≡ owner_of (row_in self.now page) }
    {
        self.row_there(page).owner()
    }

    /// Whether the page is this environment's, guaranteed or not; one that isn't there is nobody's.
    pub fn belongs_to(&self, page: u32, env: u8) -> bool
        ensures { result ≡ belongs_to env (row_in self.now page) }
    {
        match self.row(page) {
            Some(row) => row.belongs_to(env),
            None => false,
        }
    }

    /// Whether there is a page of this number that is a guaranteed one of an environment.
    pub fn guaranteed(&self, page: u32) -> bool
        ensures { result ≡ is_guaranteed (row_in self.now page) }
    {
        page < self.pages() && self.row_there(page).is_guaranteed()
    }

    /// How many pages are free.
    pub fn free_count(&self) -> u32
        ensures { result ≡ free_pages self.now }
    {
        self.free_count
    }

    /// How many pages the environment owns, without those that are guaranteed to it.
    pub fn owned_count(&self, env: u8) -> u32
        requires { env < environment_numbers }
        ensures { result ≡ owned_pages self.now env }
    {
        self.owned.count(env)
    }

    /// The lowest free page, if one is free.
    pub fn lowest_free(&self) -> Option<u32>
        ensures { result ≡ first_free self.now }
    {
        self.free.first()
    }

    /// The lowest free page becomes a guaranteed page of the environment, and its number is the answer. `NoneFree`
    /// comes where no page is free, and changes nothing.
    pub fn keep(&mut self, env: u8) -> Result<u32, PageNo>
        ensures answer { result ≡ ok_or (first_free self.old) NoneFree }
        ensures after { self.new ≡ given self.old (first_free self.old) (Guaranteed env) }
        ensures was_free { IfOk result (λ p. (p < length self.old) × (row_in self.old p ≡ Free)) }
        ensures left { OnOk result (free_pages self.old ≡ free_pages self.new + 1) }
        ensures sure { 0 < free_pages self.old → IsOk result }
    {
        self.give(PageRow::Guaranteed { owner: env })
    }

    /// The environment allocates the lowest free page, with these words, and its number is the answer. `NoneFree`
    /// comes where no page is free, and changes nothing.
    pub fn alloc_any(&mut self, env: u8, words: Capabilities) -> Result<u32, PageNo>
        ensures answer { result ≡ ok_or (first_free self.old) NoneFree }
        ensures after { self.new ≡ given self.old (first_free self.old) (Owned env words) }
        ensures was_free { IfOk result (λ p. (p < length self.old) × (row_in self.old p ≡ Free)) }
        ensures left { OnOk result (free_pages self.old ≡ free_pages self.new + 1) }
        ensures sure { 0 < free_pages self.old → IsOk result }
    {
        self.give(PageRow::Owned { owner: env, words })
    }

    /// The environment allocates this page, with these words. `NoPage` comes where there is no such page, and `Taken`
    /// where it has an owner; neither changes anything.
    pub fn alloc_at(&mut self, env: u8, page: u32, words: Capabilities) -> Result<(), PageNo>
        ensures answer { result ≡ unless (alloc_refusal (slice_get self.old page)) }
        ensures after { self.new ≡ changed_unless (alloc_refusal (slice_get self.old page)) self.old page (Owned env words) }
    {
        let why = self.alloc_refusal(page);
        self.change(why, page, PageRow::Owned { owner: env, words })
    }

    /// The environment frees its page. `NoPage` comes where there is no such page, `NotOwner` where it isn't the
    /// environment's, and `Guaranteed` where it is guaranteed to it; none changes anything.
    pub fn free(&mut self, env: u8, page: u32) -> Result<(), PageNo>
        ensures answer { result ≡ unless (change_refusal env (slice_get self.old page)) }
        ensures after { self.new ≡ changed_unless (change_refusal env (slice_get self.old page)) self.old page Free }
    {
        let why = self.change_refusal(env, page);
        self.change(why, page, PageRow::Free)
    }

    /// The environment gives its page other words. It is refused as `free` is.
    pub fn recap(&mut self, env: u8, page: u32, words: Capabilities) -> Result<(), PageNo>
        ensures answer { result ≡ unless (change_refusal env (slice_get self.old page)) }
        ensures after { self.new ≡ changed_unless (change_refusal env (slice_get self.old page)) self.old page (Owned env words) }
    {
        let why = self.change_refusal(env, page);
        let recapped = PageRow::Owned { owner: env, words };
        self.change(why, page, recapped)
    }

    /// Whether the environment, which presents a word, may bind the page, to store to it too if `writable`. `NoPage`
    /// comes where there is no such page, `Guaranteed` where it is guaranteed to the environment itself, and `NoRight`
    /// where it is free, guaranteed to another, or neither the environment's own nor one that the word gives a right to.
    pub fn may_bind(&self, env: u8, page: u32, writable: bool, word: u64) -> Result<(), PageNo>
        ensures { result ≡ unless (bind_refusal env writable word (slice_get self.now page)) }
    {
        match self.row(page) {
            Some(row) => answer_unless(row.bind_refusal(env, writable, word)),
            None => Err(PageNo::NoPage),
        }
    }

    /// All pages of an environment that is gone become free, its guaranteed ones too.
    pub fn release_env(&mut self, env: u8)
        ensures { self.new ≡ map (released env) self.old }
    {
        for page in 0..self.pages() {
            let row = self.row_there(page);
            if row.belongs_to(env) {
                self.set(page, PageRow::Free);
            }
        }
    }

    /// Takes a page by force, whoever's it is, a guaranteed one too: it is free from now on.
    pub fn release(&mut self, page: u32)
        requires { IsSome (owner_of (row_in self.old page)) }
        ensures { self.new ≡ slice_set self.old page Free }
    {
        self.set(page, PageRow::Free);
    }

    /// Gives the lowest free page this row.
    fn give(&mut self, row: PageRow) -> Result<u32, PageNo>
        requires { is_free row ≡ false }
        ensures answer { result ≡ ok_or (first_free self.old) NoneFree }
        ensures after { self.new ≡ given self.old (first_free self.old) row }
        ensures was_free { IfOk result (λ p. (p < length self.old) × (row_in self.old p ≡ Free)) }
        ensures left { OnOk result (free_pages self.old ≡ free_pages self.new + 1) }
        ensures sure { 0 < free_pages self.old → IsOk result }
    {
        let Some(page) = self.lowest_free() else {
            return Err(PageNo::NoneFree);
        };
        self.set(page, row);
        Ok(page)
    }

    /// Gives a page this row, and keeps what is kept beside the rows.
    fn set(&mut self, page: u32, row: PageRow)
        requires { page < length self.old }
        ensures { self.new ≡ slice_set self.old page row }
    {
        let old = self.row_there(page);
        self.rows[page as usize] = row;
        self.free.put(page, row.is_free());
        self.free_count = self.free_count + one_if(row.is_free()) - one_if(old.is_free());
        self.owned.lose(old);
        self.owned.gain(row);
    }

    /// Why the page can't be allocated.
    fn alloc_refusal(&self, page: u32) -> Option<PageNo>
        ensures why { result ≡ alloc_refusal (slice_get self.now page) }
        ensures there { IsNone result → page < length self.now }
    {
        match self.row(page) {
            Some(row) => row.alloc_refusal(),
            None => Some(PageNo::NoPage),
        }
    }

    /// Why the environment can't free the page, or give it other words.
    fn change_refusal(&self, env: u8, page: u32) -> Option<PageNo>
        ensures why { result ≡ change_refusal env (slice_get self.now page) }
        ensures there { IsNone result → page < length self.now }
    {
        match self.row(page) {
            Some(row) => row.change_refusal(env),
            None => Some(PageNo::NoPage),
        }
    }

    /// Gives a page this row, unless the call is refused.
    fn change(&mut self, why: Option<PageNo>, page: u32, row: PageRow) -> Result<(), PageNo>
        requires { IsNone why → page < length self.old }
        ensures answer { result ≡ unless why }
        ensures after { self.new ≡ changed_unless why self.old page row }
    {
        if why.is_none() {
            self.set(page, row);
        }
        answer_unless(why)
    }
}

/// 1 if it is so, and else 0.
fn one_if(is: bool) -> u32
    ensures { result ≡ one_if is }
{
    u32::from(is)
}

/// The answer of a call that is refused for this cause, if there is one.
fn answer_unless(why: Option<PageNo>) -> Result<(), PageNo>
    ensures { result ≡ unless why }
{
    match why {
        None => Ok(()),
        Some(why) => Err(why),
    }
}
