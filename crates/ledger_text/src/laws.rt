//! What is known of all that the readers give.
ghost use Rattle.ledger_text.specs.Within.{LedgersAreWithin, PlansAreWithin};

use kernel_journal::law_rows_are_read_back;

/// The numbers of each ledger and each plan that the readers give are within their limits.
pub fn law_within()
    ensures ledgers { LedgersAreWithin }
    ensures plans { PlansAreWithin }
{
    law_rows_are_read_back();
}
