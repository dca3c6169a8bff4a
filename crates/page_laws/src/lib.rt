//! What environments see of the pages that they own or have bound: by whose the pages are, by their bindings, and by
//! what stands in physical memory. `law_sights` says how each change of the books changes it: just as the model's items
//! say. `law_through` says through what they store to them.
#![tactic(auto)]

mod laws;

pub use laws::{law_sights, law_through};
