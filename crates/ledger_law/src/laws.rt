//! The law of the ledger.
ghost use Rattle.ledger_law.specs.LedgerLaw.{EndFits, RowsFit, RunsAreClean};
ghost use Rattle.ledger_law.specs.Telling.{LedgerTells};

use call_verdicts::law_granted;
use ledger_audit::law_audit;
use run_model::{law_next_turn, law_time, law_turn};

/// The rows of every run fit, each behind those before it, for every image within its limits, every schedule and every
/// number of ticks.
pub fn law_ledger()
    ensures { RowsFit }
{
    law_granted();
    law_next_turn();
    law_turn();
}

/// How a run ended fits behind its rows, for every image within its limits, every schedule and every limit of ticks.
pub fn law_ledger_end()
    ensures { EndFits }
{
    law_time();
    law_granted();
    law_next_turn();
    law_turn();
}

/// The state of the rules after the rows of a run is the world's: whose the slots are, who runs, where, in which phase and
/// until when, and what whoever lives owes.
pub fn law_ledger_tells()
    ensures { LedgerTells }
{
    law_granted();
    law_next_turn();
    law_turn();
}

/// A ledger that has the rows and the end of a run, and sums that count right, is one that the auditor finds clean with
/// the image's quantum, for every image within its limits, every schedule and every limit of ticks.
pub fn law_runs_are_clean()
    ensures { RunsAreClean }
{
    law_ledger();
    law_ledger_end();
    law_audit();
}
