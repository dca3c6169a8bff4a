//! Texts: their lines with their places, their statements, the words of a line, the numbers that are
//! read in them, and the numbers, bytes and lines that are written into them; and tables of names. Every reader
//! of texts stands on these, so that a line number, a place, a word and a number mean the same in each;
//! and every writer appends exactly its definition of printed text.
#![tactic(auto)]

mod characters;
mod failure;
mod line_words;
mod line_writing;
mod lines;
mod numbers;
mod print;
mod statements;
mod table;
mod word_lists;

pub use characters::{is_blank, is_text};
pub use failure::{Failure, LineFault, TextFailure, at_line};
pub use line_words::{Words, blanks_before, words_of};
pub use line_writing::{Word, end_line, push_line, push_spaced, push_word};
pub use lines::{Line, Lines, cut};
pub use numbers::{decimal, number, number_within, numeral};
pub use print::{push_dec, push_hex, push_quoted};
pub use statements::{Statements, end_of, statements_of};
pub use table::{TableRow, find};
pub use word_lists::few_words;
