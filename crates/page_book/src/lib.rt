//! The book of pages: whose each page of physical memory is, and the capability words by which others may bind it.
//!
//! The book is seen as the list of the pages' rows. Each call changes one row, or those of an environment that is gone.
#![tactic(auto)]

mod holdings;
mod laws;
mod page_set;
mod pages;
mod refusal;
mod row;

pub use laws::{law_lowest_free, law_none_free};
pub use pages::Pages;
pub use refusal::PageNo;
pub use row::{Capabilities, PageRow};
