//! Requests for pages, and who is there, as the rows of a ledger tell of them.
ghost use Rattle.std.specs.Prelude.{◌≡◌};
ghost use Rattle.kernel_journal.specs.RowTable.{IsRowWithin};
ghost use Rattle.ledger_audit.specs.StrictRules.{are_there, is_packet_size, is_there, no_requests};

use aegis_limits::ENVIRONMENT_NUMBERS;
use external_event::MOST_PACKET_SIZE;
use kernel_journal::Row;

/// What the rows so far say of requests for pages.
#[derive(Drop)]
pub(crate) struct Requests {
    /// How many pages each environment has still to give.
    pages: [u32; ENVIRONMENT_NUMBERS],
    /// In which tick they are taken otherwise.
    deadlines: [u32; ENVIRONMENT_NUMBERS],
    /// Which environments died.
    dead: [bool; ENVIRONMENT_NUMBERS],
}

impl Requests {
    ghost use Rattle.ledger_audit.specs.Requests.{requests_of};
    ghost use Rattle.ledger_audit.specs.StrictRules.{is_strict, is_strict_by_kind, requests_after};

    /// Before the first row.
    pub(crate) fn none() -> Requests
        ensures { requests_of result ≡ no_requests }
    {
        Requests {
            pages: [0; ENVIRONMENT_NUMBERS],
            deadlines: [0; ENVIRONMENT_NUMBERS],
            dead: [false; ENVIRONMENT_NUMBERS],
        }
    }

    /// Notes a row.
    pub(crate) fn note(&mut self, row: &Row)
        requires { IsRowWithin row.now }
        ensures { requests_of self.new ≡ requests_after row.now (requests_of self.old) }
    {
        match *row {
            Row::Asked {
                env,
                outstanding,
                deadline,
                ..
            } => {
                self.pages[env as usize] = outstanding;
                self.deadlines[env as usize] = deadline;
            }
            Row::Take { env, .. } => {
                let left = self.pages[env as usize];
                self.pages[env as usize] = left.saturating_sub(1);
            }
            Row::Dead { env, .. } => {
                self.pages[env as usize] = 0;
                self.dead[env as usize] = true;
            }
            // The others say nothing of pages.
            _ => {}
        }
    }

    /// Whether a row keeps the second table, in a machine with so many environments.
    pub(crate) fn allow(&self, environments: usize, row: &Row) -> bool
        requires { IsRowWithin row.now }
        ensures { result ≡ is_strict environments (requests_of self.now) row.now }
    {
        are_there(environments, row) && self.allow_by_kind(row)
    }

    /// Whether it does but for whom it names.
    fn allow_by_kind(&self, row: &Row) -> bool
        requires { IsRowWithin row.now }
        ensures { result ≡ is_strict_by_kind (requests_of self.now) row.now }
    {
        match *row {
            Row::Asked {
                time,
                env,
                outstanding,
                deadline,
            } => !self.dead[env as usize] && 0 < outstanding && time <= deadline,
            Row::Take { time, env, .. } => {
                0 < self.pages[env as usize] && time == self.deadlines[env as usize]
            }
            Row::Unclaimed { length, .. } => is_packet_size(length),
            _ => true,
        }
    }
}

/// Whether the environments that a row names are among so many.
fn are_there(environments: usize, row: &Row) -> bool
    ensures { result ≡ are_there environments row.now }
{
    match *row {
        Row::Own { owner, holder, .. } => {
            is_there(environments, owner) && is_there(environments, holder)
        }
        Row::Run { env, .. }
        | Row::Pay { env, .. }
        | Row::End { env, .. }
        | Row::Over { env, .. }
        | Row::Stop { env, .. }
        | Row::Dead { env, .. }
        | Row::Asked { env, .. }
        | Row::Take { env, .. } => (env as usize) < environments,
        Row::Give { from, to, .. } | Row::Async { from, to, .. } | Row::Sync { from, to, .. } => {
            (from as usize) < environments && (to as usize) < environments
        }
        Row::Unclaimed { .. } => true,
    }
}

/// Whether an environment is among so many, if it is one.
fn is_there(environments: usize, env: Option<u8>) -> bool
    ensures { result ≡ is_there environments env }
{
    match env {
        Some(env) => (env as usize) < environments,
        None => true,
    }
}

/// Whether a packet may have this size.
fn is_packet_size(size: u32) -> bool
    ensures { result ≡ is_packet_size size }
{
    1 <= size && size as usize <= MOST_PACKET_SIZE
}
