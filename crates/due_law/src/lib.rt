//! The law of what an environment learns. One that accepts nobody is given what is due to it by what it was given
//! before: `law_feed_is_due`. So two of its feeds first differ in an answer to its own call, or in an item that is
//! neither its own nor an answer: `law_difference_is_told`. If nothing comes besides, equal answers make equal feeds:
//! `law_private_is_told`. So it is of one that calls for no page, packet or signal: `law_bare_is_told`.
#![tactic(auto)]

mod laws;

pub use laws::{law_bare_is_told, law_difference_is_told, law_feed_is_due, law_private_is_told};
