//! A claim with its filter and its handler.
ghost use Rattle.std.specs.Prelude.{◌≡◌};
ghost use Rattle.std.specs.Option.{option_map};
ghost use Rattle.filter_tree.specs.ClaimBook.{is_of_env};
ghost use Rattle.filter_tree.specs.Claims.{claim_seen, row_with_handler, is_in_the_way, is_into, is_numbered, row_after_packet};
ghost use Rattle.filter_tree.specs.Withdrawals.{is_withdrawn};

use crate::claim::Claim;
use crate::withdrawal::Withdrawal;
use filter_core::{Filter, Layout};
use handler_rules::Handler;
use std::marker::Model;

/// A claim with its filter, and with its handler if it has one.
#[derive(Drop)]
pub(crate) struct ClaimRow {
    pub(crate) claim: Claim,
    pub(crate) filter: Filter,
    pub(crate) handler: Option<Handler>,
}

impl Model for ClaimRow {
    ghost use Rattle.filter_tree.specs.ClaimBook.{RowValue};

    ghost Value = { RowValue };

    ghost view = { λ row. record { claim = record { id = row.claim.id; env = row.claim.env; filter = row.filter; page = row.claim.page }; next = row.claim.next; handler = row.handler } };
}

impl ClaimRow {
    /// The claim.
    pub(crate) fn claim(&self) -> Claim
        ensures { result ≡ claim_seen self.now }
    {
        self.claim
    }

    /// Whether it is the environment's.
    pub(crate) fn is_of_env(&self, env: u8) -> bool
        ensures { result ≡ is_of_env env self.now.claim }
    {
        self.claim.env == env
    }

    /// Whether it is withdrawn.
    pub(crate) fn is_withdrawn(&self, withdrawal: Withdrawal) -> bool
        ensures { result ≡ is_withdrawn withdrawal self.now.claim }
    {
        withdrawal.takes(self.claim.id, self.claim.env, self.claim.page)
    }

    /// Whether its packets go into the page.
    pub(crate) fn is_into(&self, page: u32) -> bool
        ensures { result ≡ is_into page self.now.claim }
    {
        self.claim.page == page
    }

    /// The next packet goes into the other buffer.
    pub(crate) fn turn(&mut self)
        ensures { self.new ≡ row_after_packet self.old }
    {
        self.claim.next = self.claim.next.other();
    }

    /// Its number.
    pub(crate) fn id(&self) -> u32
        ensures { result ≡ self.now.claim.id }
    {
        self.claim.id
    }

    /// Whether it is the claim of this number.
    pub(crate) fn is_numbered(&self, id: u32) -> bool
        ensures { result ≡ is_numbered id self.now.claim }
    {
        self.claim.id == id
    }

    /// Its handler, if it has one.
    pub(crate) fn handler(&self) -> Option<&Handler>
        ensures { option_map (λ handler. handler.now) result ≡ self.now.handler }
    {
        self.handler.as_ref()
    }

    /// The handler is its own from now on; with none it has none.
    pub(crate) fn download(&mut self, handler: Option<&Handler>)
        ensures { self.new ≡ row_with_handler (option_map (λ handler. handler.now) handler.entry) self.old }
    {
        self.handler = handler.map(Handler::copy);
    }

    /// Whether it is another environment's and some packet is matched by its filter and by the one that is laid out.
    pub(crate) fn is_in_the_way(&self, env: u8, filter: &Layout<'_>) -> bool
        ensures { result ≡ is_in_the_way env filter.now self.now.claim }
    {
        self.claim.env != env && filter.overlaps(&self.filter)
    }
}
