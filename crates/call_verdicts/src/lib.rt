//! The kernel's verdicts on calls: why each is refused or with which value it is granted, and what it does then.
//!
//! They are made over `CallView`, a few readers that each speak of the world; so the crate knows no board.
#![tactic(auto)]

mod arguments;
mod backup_calls;
mod claim_calls;
mod decision;
mod handler_calls;
mod laws;
mod line_calls;
mod own_calls;
mod page_calls;
mod queries;
mod slot_calls;
mod view;

pub use claim_calls::claimed_filter;
pub use decision::{decide, deed_of};
pub use handler_calls::named_handler;
pub use laws::{law_again, law_granted};
pub use view::CallView;
