//! The assembler's syntax: which statement each line of a source has, and where its parts stand. What a
//! label, an operation, an operand, an expression and a comment are is defined on the bytes, apart from
//! the parser; the parser gives exactly the lines of that definition, or the first line of another form.
#![tactic(auto)]

mod blanks;
mod bytes;
mod expression;
mod fault;
mod laws;
mod lines;
mod marks;
mod openings;
mod operands;
mod piece;
mod quoted;
mod quoting;
mod register;
mod syntax;
mod words;

pub use expression::{Expression, Inner};
pub use fault::AsmWhy;
pub use laws::{encloses_high, encloses_low};
pub use lines::{parse, parse_line};
pub use openings::{Half, Openings};
pub use register::Register;
pub use syntax::{Arg, Args, AsmBody, AsmLine, Name, Operand};
