//! The backups of an environment.
ghost use Rattle.std.specs.Prelude.{◌≡◌, drop, length, slice_get, IsNone};
ghost use Rattle.revocation_book.specs.Backups.{AreDistinct, is_loaded, load_refusal, loaded, unloaded};

use crate::revocation::LoadNo;
use arrayvec::ArrayVec;
use std::marker::Model;

/// The most backups that an environment has.
pub const MOST_BACKUPS: usize = 64;

/// The backups of an environment, in the order in which they were loaded.
#[derive(Drop, Default)]
pub(crate) struct Backups {
    pages: ArrayVec<u32, MOST_BACKUPS>,
}

impl Model for Backups {
    ghost use Rattle.std.specs.Prelude.{ℕ, List};
    ghost use Rattle.revocation_book.specs.Backups.{AreDistinct};

    ghost Value = { List ℕ };

    ghost view = { λ b. b.pages.items };

    ghost invariant = { λ b. AreDistinct b.pages.items };
}

impl Backups {
    /// The pages, in their order.
    pub(crate) fn pages(&self) -> &[u32]
        ensures { result.now ≡ self.now }
    {
        &self.pages
    }

    /// How many they are. None of them stands twice.
    pub(crate) fn count(&self) -> u32
        ensures count { result ≡ length self.now }
        ensures distinct { AreDistinct self.now }
    {
        self.pages.len() as u32
    }

    /// Whether a page is one of them.
    pub(crate) fn is_loaded(&self, page: u32) -> bool
        ensures { result ≡ is_loaded self.now page }
    {
        self.pages.contains(&page)
    }

    /// Why a page isn't loaded as one more.
    pub(crate) fn load_refusal(&self, page: u32) -> Option<LoadNo>
        ensures { result ≡ load_refusal self.now page }
    {
        if self.is_loaded(page) {
            Some(LoadNo::Loaded)
        } else if self.pages.is_full() {
            Some(LoadNo::Full)
        } else {
            None
        }
    }

    /// A page is loaded as the last.
    pub(crate) fn load(&mut self, page: u32)
        requires { IsNone (load_refusal self.old page) }
        ensures { self.new ≡ loaded page self.old }
    {
        self.pages.push(page);
    }

    /// A page is none of them any more.
    pub(crate) fn unload(&mut self, page: u32)
        ensures { self.new ≡ unloaded page self.old }
    {
        self.pages.retain(|backup| *backup != page);
    }

    /// Takes the one that was loaded first, if there is one.
    pub(crate) fn take_first(&mut self) -> Option<u32>
        ensures first { result ≡ slice_get self.old 0 }
        ensures rest { self.new ≡ drop 1 self.old }
    {
        self.pages.pop_at(0)
    }
}
