//! What the auditor's yes is worth.
ghost use Rattle.ledger_audit.specs.Laws.{CleanKeepsRules, KeptIsClean, SharesDivideUnit};
ghost use Rattle.ledger_audit.specs.StrictAnswer.{BothKeptIsClean, CleanKeepsBoth};

/// A ledger is clean exactly where each row fits by the rules over the whole list of rows and keeps to the plan, each sum
/// counts right, and the end fits.
pub fn law_audit()
    ensures clean { CleanKeepsRules }
    ensures kept { KeptIsClean }
    // So a client's pass is a whole number, whatever its share.
    ensures shares { SharesDivideUnit }
{}

/// By the strict audit a ledger is clean exactly where it keeps the rules and the plan as above, each row keeps the second
/// table, and each environment has a sum.
pub fn law_strict_audit()
    ensures clean { CleanKeepsBoth }
    ensures kept { BothKeptIsClean }
{}
