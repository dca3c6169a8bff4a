//! The law of quiet environments: one that accepts nobody, that no event asks for pages, and that calls for nothing
//! shared can't tell what its neighbours, their packets or the operator do. `law_quiet` says so of what it is given and
//! owes at the end of its slice, and `law_quiet_text` of what the reports of two runs show of it there;
//! `law_quiet_each_tick` and `law_quiet_never_differs` say so at each tick. `law_quiet_decided` says how it is seen
//! that an environment is quiet.
#![tactic(auto)]

mod laws;

pub use laws::{
    law_quiet, law_quiet_decided, law_quiet_each_tick, law_quiet_never_differs, law_quiet_text,
};
