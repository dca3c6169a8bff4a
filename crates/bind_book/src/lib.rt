//! The book of bindings: at which of their VPNs environments see pages that they bound.
//!
//! Each environment has a stripe of as many rows as the version gives, and the binding of a VPN stands in the row of
//! that number modulo these. The book is seen as the version and the list of all rows, those of environment 0 first. The
//! marks of pages aren't seen: they tell which rows needn't be read where a page's bindings are broken.
#![tactic(auto)]

mod binding;
mod bindings;
mod laws;
mod mark;
mod page_marks;
mod sweep;

pub use binding::Binding;
pub use bindings::Bindings;
pub use laws::{law_bound, law_empty_rows, law_row_set, law_stays_unbound, law_swept};
