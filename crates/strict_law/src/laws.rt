//! The laws of the second table of the ledger's rules.
ghost use Rattle.strict_law.specs.StrictLaw.{ReportsAreStrict, RowsAreStrict};

use ledger_audit::{law_audit, law_strict_audit};
use ledger_law::law_runs_are_clean;
use report_law::law_reports_are_read;

/// The rows of every run keep the second table: a page is taken from an environment only if it was asked for one that it
/// hasn't given, in the tick of the deadline; who is asked lives, has a page to give at least, and a deadline that isn't
/// over; a packet has a packet's size; and the environments that rows name are those of the image. So it is for every image
/// within its limits, every schedule of events within theirs, and every limit of ticks that a run may have.
pub fn law_rows_are_strict()
    ensures { RowsAreStrict }
{
    law_reports_are_read();
}

/// The strict audit finds the bytes that a run writes clean with the image's quantum, and as many rows in them as the run
/// has.
pub fn law_reports_are_strict()
    ensures { ReportsAreStrict }
{
    law_rows_are_strict();
    law_reports_are_read();
    law_runs_are_clean();
    law_strict_audit();
    law_audit();
}
