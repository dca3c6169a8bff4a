//! The laws of what environments are given: nothing that is licensed is withheld, who calls finds its answer and what its
//! call brings, and what is written, sent or changed in registers has its origin in the environment's own items.
#![tactic(auto)]

mod laws;

pub use laws::{law_answered, law_given, law_origins, law_owners_words};
