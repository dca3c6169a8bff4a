//! The user and coprocessor 0 instructions of MIPS I, and what each word spells (`docs/MACHINE.md`,
//! "Encoding"): the type, and the definitions. `mips_codec` has the code that reads and writes words.
#![tactic(auto)]

mod insn;

pub use insn::Insn;
