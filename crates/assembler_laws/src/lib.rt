//! The laws of the assembler: what is listed of a word assembles to the word, and the file that a source assembles to is
//! a program that can be booted, whose pages are those that the source says.
#![tactic(auto)]

mod booting;
mod listing;

pub use booting::law_assembled_programs_boot;
pub use listing::{
    law_listed_texts_assemble, law_listed_words_are_statements, law_listed_words_assemble,
};
