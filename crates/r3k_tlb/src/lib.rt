//! The table of translations of the processor: 64 rows of two words.
//!
//! A row says of one virtual page, as one process sees it, which page of physical memory it is. The table is seen as the
//! list of its rows. Rows may be any words: two may fit one page, of which the lowest counts, and one with the global bit
//! fits every process (`docs/MACHINE.md`, "The TLB").
#![tactic(auto)]

mod index;
mod row;
mod row_test;
mod tlb;

pub use row::{Row, hi_word, lo_word};
pub use row_test::RowTest;
pub use tlb::{ROW_COUNT, Tlb};
