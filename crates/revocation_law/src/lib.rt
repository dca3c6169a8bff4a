//! The laws of revocation: what is pending was told; a page is taken only from an environment that was asked for it, in the
//! tick of the deadline that it was told last; others' calls take pages slowly; and the answer 22 helps.
#![tactic(auto)]

mod laws;

pub use laws::{law_again_helps, law_pending, law_pressure, law_taken};
