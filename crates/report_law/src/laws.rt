//! The law of the report.
ghost use Rattle.report_law.specs.ReportLaw.{ReportsAreClean, ReportsAreRead};

use call_verdicts::law_granted;
use kernel_journal::law_rows_are_read_back;
use ledger_law::{law_ledger, law_runs_are_clean};
use run_model::law_alone;
use sharing_law::law_licence;

/// The bytes that a run writes have no fault, and are read as the run's ledger: its rows, how it ended and when, and a sum for
/// each environment, which counts right. So it is for every image within its limits, every schedule of events within theirs,
/// and every limit of ticks that a run may have.
pub fn law_reports_are_read()
    ensures { ReportsAreRead }
{
    law_rows_are_read_back();
    law_granted();
    law_alone();
    law_licence();
    law_ledger();
}

/// The auditor finds these bytes clean with the image's quantum, and as many rows in them as the run has.
pub fn law_reports_are_clean()
    ensures { ReportsAreClean }
{
    law_reports_are_read();
    law_runs_are_clean();
}
