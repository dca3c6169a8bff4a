//! The assembler: what a source in the language of `docs/ASSEMBLER.md` assembles to.
//!
//! `assemble` answers exactly what the definition of the language says: the first fault of two passes,
//! or the program, which can be written as an ELF file. The first pass is `asm_layout`'s; the second, the
//! values, the words and the bytes, stands here.
#![tactic(auto)]

mod assembler;
mod emission;
mod field;
mod number;
mod second;
mod words;

pub use assembler::assemble;
