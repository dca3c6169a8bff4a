//! The words of the instructions, read and written (`docs/MACHINE.md`, "Encoding").
//!
//! Every word below 2^32 spells exactly one instruction, and no two words spell the same one. `decode`
//! answers the instruction of a word and `encode` the word of an instruction, each with the table of
//! the encoding as its contract; they undo each other. Beside them stand the formulas by which words
//! are sign-extended, merged and cut into bytes.
#![tactic(auto)]

mod coding;
mod fields;
mod laws;
mod words;

pub use coding::{CODE_LIMIT, decode, encode};
pub use fields::{COP0, REGIMM, SPECIAL, code, function, imm, opcode, rd, rs, rt, sh, target};
pub use laws::{
    each_word_spells_one_instruction, one_word_spells_each_instruction, only_word_spells,
};
pub use words::{le_bytes, le_word, merge_left, merge_right, sign16, store_left, store_right};
