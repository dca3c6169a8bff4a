//! Ledgers and plans as texts: a report is read as its ledger, and a plan as its clients. `docs/LEDGER_AUDIT.md` has their
//! forms. A text of another form is refused with its first line that breaks a rule, and with that rule.
#![tactic(auto)]

mod entry;
mod fault;
mod kind;
mod laws;
mod ledger;
mod plan;
mod rows;
mod words;

pub use entry::Entry;
pub use fault::LedgerWhy;
pub use kind::LineKind;
pub use laws::law_within;
pub use ledger::{Ledger, read_ledger};
pub use plan::{Plan, read_plan};
