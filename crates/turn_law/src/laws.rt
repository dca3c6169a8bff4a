//! Turns come.
ghost use Rattle.turn_law.specs.TurnLaw.{CleanTurnsCome, TurnsCome};

use ledger_audit::law_audit;

/// In every ledger that keeps the rules, whoever holds a slot makes a step within the longest turn times the slots,
/// and as often again as it owes quanta.
pub fn law_turns_come()
    ensures { TurnsCome }
{}

/// So it is in every ledger that the auditor finds clean, whoever wrote it.
pub fn law_clean_turns_come()
    ensures { CleanTurnsCome }
{
    law_turns_come();
    law_audit();
}
