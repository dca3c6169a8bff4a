//! The book of bindings.
ghost use Rattle.std.specs.Prelude.{◌≡◌, ◌<◌, ◌≤◌, length, is_some, IfOk};
ghost use Rattle.aegis_limits.specs.Limits.{most_pages, most_stripe_rows, vpn_end};
ghost use Rattle.aegis_limits.specs.VersionLimits.{most_environments_of, stripe_rows};
ghost use Rattle.page_book.specs.Rows.{row_in};
ghost use Rattle.bind_book.specs.Stripe.{row_of, stripe_place, HasStripe, stripes, binding_at, empty_stripes, of_number, unbound, with_binding_in, leads_to_page, goes_with, swept};

use crate::binding::Binding;
use crate::page_marks::PageMarks;
use crate::sweep::{break_marked, clear_env};
use aegis_limits::{OutOfMemory, Version, law_versions_are_within};
use page_book::Pages;
use std::alloc::Global;
use std::marker::Model;

/// The bindings of all environments: a stripe for each, of as many rows as the version gives.
#[derive(Drop)]
pub struct Bindings {
    version: Version,
    rows: Vec<Option<Binding>>,
    marks: PageMarks,
}

impl Model for Bindings {
    ghost use Rattle.std.specs.Prelude.{◌≤◌, length};
    ghost use Rattle.bind_book.specs.Marks.{AreMarked};
    ghost use Rattle.bind_book.specs.Stripe.{Stripes, most_places};

    ghost Value = { Stripes };

    ghost view = { λ b. record { version = b.version; rows = b.rows.items } };

    ghost invariant = { λ b. (length b.rows.items ≤ most_places) × AreMarked b.marks b.rows.items };
}

impl Bindings {
    /// Empty stripes for so many environments, at most as many as the version allows. An `Err` says that there is no
    /// memory for them.
    #[tactic(auto, unfolding(aegis_limits::specs::VersionLimits::stripe_rows))]
    pub fn new(alloc: Global, envs: u8, version: Version) -> Result<Bindings, OutOfMemory>
        requires { envs ≤ most_environments_of version }
        ensures { IfOk result (λ b. b ≡ empty_stripes version envs) }
    {
        let rows = vec![in alloc; None; place(version, envs, 0)]?;
        let marks = PageMarks::new(alloc)?;
        Ok(Bindings {
            version,
            rows,
            marks,
        })
    }

    /// The version, by which stripes have their rows.
    pub fn version(&self) -> Version
        ensures { result ≡ self.now.version }
    {
        self.version
    }

    /// Binds a page, below `MOST_PAGES`, to the environment's VPN, below `VPN_END`. What stood in the row of that
    /// number gives way, and is the answer. All other rows stay.
    #[inline(always)]
    pub fn bind(&mut self, env: u8, vpn: u32, page: u32, writable: bool) -> Option<Binding>
        requires stripe { HasStripe self.old env }
        requires number { vpn < vpn_end }
        requires page { page < most_pages }
        ensures replaced { result ≡ stripes self.old env (row_of self.old.version vpn) }
        ensures after { self.new ≡ with_binding_in self.old env (record { vpn = vpn; page = page; writable = writable }) }
        ensures count { length self.new.rows ≡ length self.old.rows }
    {
        let at = place(self.version, env, row_of(self.version, vpn));
        self.marks.mark(page, at as u32);
        let replaced = self.rows[at];
        self.rows[at] = Some(Binding {
            vpn,
            page,
            writable,
        });
        replaced
    }

    /// Takes away the binding of the environment's VPN. The answer is whether there was one; if not, nothing
    /// changes.
    pub fn unbind(&mut self, env: u8, vpn: u32) -> bool
        ensures answer { result ≡ is_some (binding_at self.old.version (stripes self.old env) vpn) }
        ensures after { self.new ≡ unbound self.old env vpn }
        ensures count { length self.new.rows ≡ length self.old.rows }
    {
        let at = place(self.version, env, row_of(self.version, vpn));
        match self.rows.get_mut(at) {
            Some(row) if is_of_vpn(*row, vpn) => {
                *row = None;
                true
            }
            _ => false,
        }
    }

    /// The binding of the environment's VPN, if there is one.
    pub fn find(&self, env: u8, vpn: u32) -> Option<Binding>
        ensures { result ≡ binding_at self.now.version (stripes self.now env) vpn }
    {
        let binding = self.in_row(env, row_of(self.version, vpn))?;
        if binding.vpn == vpn {
            Some(binding)
        } else {
            None
        }
    }

    /// The binding that stands in this row, below `MOST_STRIPE_ROWS`, of the environment's stripe, if one does. Behind
    /// the version's rows none does.
    pub fn in_row(&self, env: u8, row: u32) -> Option<Binding>
        requires { row < most_stripe_rows }
        ensures { result ≡ stripes self.now env row }
    {
        if row < self.version.stripe_rows() {
            *self.rows.get(place(self.version, env, row))?
        } else {
            None
        }
    }

    /// Breaks the bindings of a page, of all environments but this one, if one is spared. Rows are looked at only where the
    /// page's mark says that they may lead to it. Where nobody is spared, none does any more.
    pub fn break_page(&mut self, page: u32, but: Option<u8>)
        ensures after { self.new ≡ swept (leads_to_page page but) self.old }
        ensures count { length self.new.rows ≡ length self.old.rows }
    {
        let mark = self.marks.of(page);
        break_marked(&mut self.rows, self.version, mark, page, but);
        if but.is_none() {
            self.marks.unmark(page);
        }
    }

    /// An environment is gone: its bindings go, and those of its pages that others have. The book of pages is the one
    /// from before its pages are released.
    pub fn clear_env(&mut self, env: u8, pages: &Pages)
        ensures after { self.new ≡ swept (goes_with (row_in pages.now) env) self.old }
        ensures count { length self.new.rows ≡ length self.old.rows }
    {
        clear_env(&mut self.rows, self.version, env, pages);
    }
}

/// The row of a VPN in its environment's stripe.
fn row_of(version: Version, vpn: u32) -> u32
    ensures row { result ≡ row_of version vpn }
    ensures within { result < stripe_rows version }
    ensures most { result < most_stripe_rows }
{
    law_versions_are_within();
    vpn % version.stripe_rows()
}

/// Whether a row has the binding of this VPN.
fn is_of_vpn(row: Option<Binding>, vpn: u32) -> bool
    ensures { result ≡ is_some (of_number vpn row) }
{
    match row {
        Some(binding) => binding.vpn == vpn,
        None => false,
    }
}

/// The place of an environment's row among all rows.
fn place(version: Version, env: u8, row: u32) -> usize
    requires { row < most_stripe_rows }
    ensures { result ≡ stripe_place version env row }
{
    env as usize * version.stripe_rows() as usize + row as usize
}
