//! What an environment is asked for, and what lowers it.
ghost use Rattle.std.specs.Prelude.{◌≡◌};
ghost use Rattle.revocation_book.specs.Pending.{asked, lowered, outstanding_in, pending_of, unless_due};

use crate::revocation::Pending;

/// So many pages are outstanding until a deadline; where none is, nothing is pending.
fn pending_of(outstanding: u32, deadline: u32) -> Option<Pending>
    ensures { result ≡ pending_of outstanding deadline }
{
    if outstanding == 0 {
        None
    } else {
        Some(Pending {
            outstanding,
            deadline,
        })
    }
}

/// How many pages are outstanding.
fn outstanding_in(pending: Option<Pending>) -> u32
    ensures { result ≡ outstanding_in pending }
{
    match pending {
        Some(pending) => pending.outstanding,
        None => 0,
    }
}

/// So many pages more are asked for, and all by this deadline.
pub(crate) fn asked(pending: Option<Pending>, count: u32, deadline: u32) -> Option<Pending>
    ensures { result ≡ asked count deadline pending }
{
    pending_of(outstanding_in(pending).saturating_add(count), deadline)
}

/// A page is given back.
pub(crate) fn lowered(pending: Option<Pending>) -> Option<Pending>
    ensures { result ≡ lowered pending }
{
    let pending = pending?;
    pending_of(pending.outstanding.saturating_sub(1), pending.deadline)
}

/// What is pending once the deadlines that have come are over.
pub(crate) fn unless_due(pending: Option<Pending>, time: u32) -> Option<Pending>
    ensures { result ≡ unless_due time pending }
{
    pending.filter(|pending| time < pending.deadline)
}
