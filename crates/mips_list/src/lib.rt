//! The listing of an ELF program: for each whole word of its read-only segments a line with the address,
//! the word, and the instruction that the word spells, as the assembler reads it (`docs/ASSEMBLER.md`,
//! "Listings").
//!
//! A word's instruction is found by the rows of the assembler, and the row's operands are printed from the
//! word's bits.
#![tactic(auto)]

mod listing;
mod operand;
mod word;

pub use listing::list;
pub use word::push_word_text;
