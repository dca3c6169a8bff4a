//! The TLB that a run leaves as a text: how often each environment was refilled, Random, and the rows. Each line is proved
//! to be its definition in `specs/Text.antt`, and the text to be the lines in their order (`docs/REPORT.md`).
//!
//! The lines are pushed onto one list of bytes. Where memory runs out in the midst of it, the list is given up.
#![tactic(auto)]

mod text;

pub use text::tlb_text;
