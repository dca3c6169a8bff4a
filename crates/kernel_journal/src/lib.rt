//! The kernel's ledger: what it did with the processor and with pages, a row for each act.
//!
//! A `Journal` is seen as its rows and as how many more it has memory for. Writing a row spends
//! one of these, and so takes no memory. How a row is told, and read again, stands once, in
//! `specs/RowTable.antt`: its name, and its numbers in their order.
#![tactic(auto)]

mod journal;
mod reading;
mod row;
mod table;

pub use journal::Journal;
pub use reading::{RowFault, law_rows_are_read_back};
pub use row::{Row, RunEnd};
pub use table::{NumberKind, RowName};
