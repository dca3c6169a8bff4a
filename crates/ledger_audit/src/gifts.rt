//! The stride rule.
ghost use Rattle.std.specs.Prelude.{◌≡◌, ◌≤◌, ◌<◌, ◌^◌, option_map, All, IfSome};
ghost use Rattle.std.specs.Option.{option_copied};
ghost use Rattle.ledger_text.specs.PlanText.{plan_seen};
ghost use Rattle.kernel_journal.specs.RowTable.{IsRowWithin};
ghost use Rattle.ledger_text.specs.Within.{IsPlanWithin, IsClientWithin};
ghost use Rattle.ledger_audit.specs.StrideRule.{is_before, is_client_next, is_least, keeps_plan, no_gifts, pass_of};

use aegis_limits::ENVIRONMENT_NUMBERS;
use kernel_journal::Row;
use ledger_text::Plan;

/// Every share divides this.
const STRIDE_UNIT: u128 = 27_720;

/// How many slices the scheduler of a plan handed on to each environment.
#[derive(Drop)]
pub(crate) struct Gifts {
    counts: [u64; ENVIRONMENT_NUMBERS],
}

impl Gifts {
    ghost use Rattle.ledger_audit.specs.Gifts.{gifts_of, AreCounted};
    ghost use Rattle.ledger_audit.specs.StrideRule.{gifts_with};

    /// Before the first row.
    pub(crate) fn none() -> Gifts
        ensures gifts { gifts_of result ≡ no_gifts }
        ensures counts { AreCounted 0 result }
    {
        let counts = [0; ENVIRONMENT_NUMBERS];
        Gifts { counts }
    }

    /// Notes a row.
    pub(crate) fn note(&mut self, plan: Option<&Plan>, row: &Row)
        requires within { IsRowWithin row.now }
        requires counts { AreCounted (2 ^ 63) self.old }
        ensures { gifts_of self.new ≡ gifts_with (option_map plan_seen (option_copied plan.entry)) row.now (gifts_of self.old) }
    {
        if let (Some(plan), Row::Give { from, to, .. }) = (plan, row)
            && *from == plan.from
        {
            self.counts[*to as usize] += 1;
        }
    }

    /// Whether a row keeps to the plan.
    pub(crate) fn allow(&self, plan: Option<&Plan>, row: &Row) -> bool
        requires { IfSome plan (λ p. IsPlanWithin (plan_seen p.now)) }
        ensures { result ≡ keeps_plan (option_map plan_seen (option_copied plan.entry)) (gifts_of self.now) row.now }
    {
        match (plan, row) {
            (Some(plan), Row::Give { from, to, .. }) => {
                *from != plan.from || self.is_client_next(&plan.clients, *to)
            }
            _ => true,
        }
    }

    /// Whether it is the number of the client whose turn it is.
    fn is_client_next(&self, clients: &[(u8, u32)], to: u8) -> bool
        requires { All IsClientWithin clients.now }
        ensures { result ≡ is_client_next (gifts_of self.now) clients.now to }
    {
        clients
            .iter()
            .any(|client| client.0 == to && self.is_least(clients, *client))
    }

    /// Whether no other client is before this one.
    fn is_least(&self, clients: &[(u8, u32)], client: (u8, u32)) -> bool
        requires clients { All IsClientWithin clients.now }
        requires client { IsClientWithin client }
        ensures { result ≡ is_least (gifts_of self.now) clients.now client }
    {
        clients.iter().all(|other| self.is_before(client, *other))
    }

    /// Whether a client hasn't come as far as another, or just as far with no higher number.
    fn is_before(&self, a: (u8, u32), b: (u8, u32)) -> bool
        requires a { IsClientWithin a }
        requires b { IsClientWithin b }
        ensures { result ≡ is_before (gifts_of self.now) a b }
    {
        let first = self.pass_of(a);
        let second = self.pass_of(b);
        first < second || (first == second && a.0 <= b.0)
    }

    /// How far a client has come.
    fn pass_of(&self, client: (u8, u32)) -> u128
        requires { IsClientWithin client }
        ensures { result ≡ pass_of (gifts_of self.now) client }
    {
        let (number, share) = client;
        u128::from(self.counts[number as usize]) * STRIDE_UNIT / u128::from(share)
    }
}
