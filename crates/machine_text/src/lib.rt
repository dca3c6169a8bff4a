//! What is written of a machine, once for all texts that show one: its registers, how they differ, the rows of its TLB,
//! and the fingerprint of bytes. Each push appends its definition in `specs/`.
//!
//! Where memory runs out in the midst of a push, the list ends somewhere within the text and is given up.
#![tactic(auto)]

mod difference;
mod digest;
mod registers;
mod rows;

pub use difference::push_differences;
pub use digest::{FINGERPRINT_SIZE, fingerprint};
pub use registers::{cpu_words, push_register_words};
pub use rows::push_row_lines;
