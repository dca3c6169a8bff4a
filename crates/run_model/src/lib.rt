//! The model of whole runs: the world that an image boots, the world after so many ticks, and what each environment is
//! given in them; and the laws of turns and of whole runs. The definitions stand in `specs/` (`docs/MODEL.md`).
#![tactic(auto)]

mod laws;

pub use laws::{
    law_accounts, law_alone, law_balance, law_boot_accounts, law_feed, law_handlers, law_in_turn,
    law_licence_by_stores, law_moments, law_next_turn, law_rows_are_lawful, law_slices, law_time,
    law_turn,
};
