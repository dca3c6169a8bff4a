//! The texts of the instructions: for each name a row with the word of the instruction and the operands
//! that it takes, in their order and with the bits that they fill (`docs/ASSEMBLER.md`, "Instructions").
//! An assembler builds words by these rows, and a listing finds by them what a word spells.
#![tactic(auto)]

mod law;
mod shape;
mod text;

pub use law::law_words_have_rows;
pub use shape::{Field, OperandForm, Slot};
pub use text::{Text, find_text, find_word};
