//! The book of revocations.
ghost use Rattle.std.specs.Prelude.{◌≡◌, ◌<◌, ◌≤◌, ◌+◌, ◌++◌, length, drop, slice_get, IsNone};
ghost use Rattle.revocation_book.specs.Backups.{load_refusal, loaded};
ghost use Rattle.revocation_book.specs.RevocationBook.{EachOwnsItsBackups, backups_at, books_of, is_any_due, next_deadline, nothing_asked, once_asked, once_freed, once_gone, once_served, pending_at, with_backups};
ghost use Rattle.aegis_limits.specs.Limits.{environment_numbers};
ghost use Rattle.revocation_book.specs.Richest.{revocable_pages, richest};
ghost use Rattle.revocation_book.specs.Takings.{is_victim, takings_below, takings_of};

use crate::backups::Backups;
use crate::deadlines::Deadlines;
use crate::laws::law_few_takings;
use crate::pending::{asked, lowered};
use crate::revocation::{LoadNo, Pending, Taking};
use crate::takings::Takings;
use aegis_limits::ENVIRONMENT_NUMBERS;
use page_book::{PageRow, Pages};
use std::marker::Model;

/// What each environment is asked for and hasn't given back, and which pages it loaded as backups.
#[derive(Drop)]
pub struct Revocations {
    deadlines: Deadlines,
    backups: [Backups; ENVIRONMENT_NUMBERS],
}

impl Model for Revocations {
    ghost use Rattle.revocation_book.specs.RevocationBook.{RevocationBook};

    ghost Value = { RevocationBook };

    ghost view = { λ r. record { pending = r.deadlines; backups = r.backups } };
}

impl Revocations {
    /// Nothing is asked, and no backup is loaded.
    pub fn new() -> Revocations
        ensures { result ≡ nothing_asked }
    {
        Revocations {
            deadlines: Deadlines::new(),
            backups: Default::default(),
        }
    }

    /// Asks an environment for so many pages more, and by this deadline for all that are outstanding.
    pub fn ask(&mut self, env: u8, count: u32, deadline: u32)
        requires { env < environment_numbers }
        ensures { self.new ≡ once_asked self.old env count deadline }
    {
        let pending = self.deadlines.of(env);
        self.deadlines.set(env, asked(pending, count, deadline));
    }

    /// What an environment is asked for, if anything is outstanding.
    pub fn pending(&self, env: u8) -> Option<Pending>
        requires { env < environment_numbers }
        ensures { result ≡ pending_at self.now env }
    {
        self.deadlines.of(env)
    }

    /// An environment freed a page of its own: one page fewer is outstanding, and the page is no backup any more.
    pub fn freed(&mut self, env: u8, page: u32)
        requires { env < environment_numbers }
        ensures { self.new ≡ once_freed self.old env page }
    {
        let pending = self.deadlines.of(env);
        if pending.is_some() {
            self.deadlines.set(env, lowered(pending));
        }
        self.backups[env as usize].unload(page);
    }

    /// Why an environment's page isn't loaded as one more backup.
    pub fn load_refusal(&self, env: u8, page: u32) -> Option<LoadNo>
        requires { env < environment_numbers }
        ensures { result ≡ load_refusal (backups_at self.now env) page }
    {
        self.backups_of(env).load_refusal(page)
    }

    /// A page is the last of an environment's backups.
    pub fn load(&mut self, env: u8, page: u32)
        requires env { env < environment_numbers }
        requires room { IsNone (load_refusal (backups_at self.old env) page) }
        ensures { self.new ≡ with_backups self.old env (loaded page (backups_at self.old env)) }
    {
        self.backups[env as usize].load(page);
    }

    /// Takes the backup that an environment loaded first, if it has one: it is an ordinary page again.
    pub fn backup(&mut self, env: u8) -> Option<u32>
        requires { env < environment_numbers }
        ensures answer { result ≡ slice_get (backups_at self.old env) 0 }
        ensures after { self.new ≡ with_backups self.old env (drop 1 (backups_at self.old env)) }
    {
        self.backups[env as usize].take_first()
    }

    /// Whether a deadline has come at this time.
    pub fn is_due(&self, time: u32) -> bool
        ensures { result ≡ is_any_due self.now time }
    {
        self.deadlines.is_due(time)
    }

    /// The time of the next deadline, or one behind every tick where nothing is pending.
    pub fn next_deadline(&self) -> u32
        ensures { result ≡ next_deadline self.now }
    {
        self.deadlines.earliest_or_never()
    }

    /// What is taken at this time from the environments below a number: the lowest environment first, and of each as
    /// many pages as are outstanding, by rising number.
    pub fn takings(&self, pages: &Pages, envs: u8, time: u32) -> Takings
        requires { envs ≤ environment_numbers }
        ensures { result ≡ takings_below (books_of pages.now self.now) time envs }
    {
        law_few_takings();
        let mut takings = Takings::new();
        for env in 0..envs {
            self.push_takings(pages, env, time, &mut takings);
        }
        takings
    }

    /// How many pages may be taken from an environment: those that it owns, without its backups.
    pub fn revocable_count(&self, pages: &Pages, env: u8) -> u32
        requires env { env < environment_numbers }
        requires owned { EachOwnsItsBackups pages.now self.now }
        ensures { result ≡ revocable_pages (books_of pages.now self.now) env }
    {
        pages.owned_count(env) - self.backups_of(env).count()
    }

    /// The environment other than this one with the most pages that may be taken, the lowest of equals; none where no
    /// other has such a page.
    pub fn richest(&self, pages: &Pages, but: u8) -> Option<u8>
        requires { EachOwnsItsBackups pages.now self.now }
        ensures { result ≡ richest (books_of pages.now self.now) but }
    {
        let mut richest = None;
        let mut most = 0;
        for env in 0..ENVIRONMENT_NUMBERS as u8 {
            let count = self.revocable_count(pages, env);
            if env != but && most < count {
                richest = Some(env);
                most = count;
            }
        }
        richest
    }

    /// The deadlines that have come at this time are over.
    pub fn served(&mut self, time: u32)
        ensures { self.new ≡ once_served self.old time }
    {
        self.deadlines.serve(time);
    }

    /// An environment is gone: nothing is asked of it, and it has no backups.
    pub fn forget(&mut self, env: u8)
        requires { env < environment_numbers }
        ensures { self.new ≡ once_gone self.old env }
    {
        self.deadlines.set(env, None);
        self.backups[env as usize] = Backups::default();
    }

    /// The backups of an environment.
    fn backups_of(&self, env: u8) -> &Backups
        requires { env < environment_numbers }
        ensures { result.now ≡ backups_at self.now env }
    {
        &self.backups[env as usize]
    }

    /// Appends what is taken at this time from an environment.
    fn push_takings(&self, pages: &Pages, env: u8, time: u32, takings: &mut Takings)
        requires env { env < environment_numbers }
        requires room { length takings.old + length (takings_of (books_of pages.now self.now) time env) ≤ length pages.now }
        ensures { takings.new ≡ takings.old ++ takings_of (books_of pages.now self.now) time env }
    {
        let Some(pending) = self.pending(env) else {
            return;
        };
        if time < pending.deadline {
            return;
        }
        let backups = self.backups_of(env).pages();
        let mut taken = 0;
        for page in 0..pages.pages() {
            if taken == pending.outstanding {
                break;
            }
            if self.is_victim(pages, env, page) {
                takings.push(Taking {
                    env,
                    page,
                    backup: backups.get(taken as usize).copied(),
                });
                taken += 1;
            }
        }
    }

    /// Whether an environment owns a page that is neither guaranteed to it nor a backup.
    #[tactic(auto, using(crate::proofs::Walk::past_last))]
    fn is_victim(&self, pages: &Pages, env: u8, page: u32) -> bool
        requires { env < environment_numbers }
        ensures { result ≡ is_victim (books_of pages.now self.now) env page }
    {
        match pages.row(page) {
            Some(PageRow::Owned { owner, .. }) => {
                owner == env && !self.backups_of(env).is_loaded(page)
            }
            _ => false,
        }
    }
}
