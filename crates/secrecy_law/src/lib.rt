//! The laws of a page's secrecy: who sees a page, when nobody does, and that the dead have nothing.
#![tactic(auto)]

mod laws;

pub use laws::{law_dead, law_who_sees};
