//! The assembler's first pass: where each statement of a source stands, what it puts there, and the values
//! of the labels and of the names of `.equ` (`docs/ASSEMBLER.md`).
//!
//! `lay_out` answers exactly what the definition of the pass says: its first fault in the order of the
//! lines, or the layout. Expressions whose names get their values later stand in it as they are written.
#![tactic(auto)]

mod action;
mod content;
mod directive;
mod draft;
mod first;
mod layout;
mod names;
mod number;
mod reading;
mod section;
mod value;

pub use content::Content;
pub use draft::{Draft, Filling};
pub use first::lay_out;
pub use layout::{Layout, Placed};
pub use names::Names;
pub use number::NumberSize;
pub use section::Section;
pub use value::defined;
