//! The ledger's auditor: whether a ledger keeps the rules of slices and excess, and a scheduler its plan, and if not, in
//! which line it breaks them first (`docs/LEDGER_AUDIT.md`). It goes once over the rows, and takes no memory.
#![tactic(auto)]

mod answer;
mod fitting;
mod gifts;
mod laws;
mod pass;
mod requests;
mod slots;
mod state;
mod strict;
mod turns;

pub use answer::AuditAnswer;
pub use laws::{law_audit, law_strict_audit};
pub use pass::audit;
pub use strict::audit_strictly;
