//! ELF files: what is read and what is written of a program for a MIPS machine with the lowest byte
//! first.
//!
//! A file that breaks a rule is refused with the first rule that it breaks, in the order of
//! `docs/FORMATS.md`, and with the place where it does. Of an accepted file the segments' bytes are lent,
//! and each segment lies in its limits, so that the layers above test nothing again.
//!
//! A written file is exactly the layout of `docs/FORMATS.md`, "ELF files that Aegis writes": a file
//! header, a program header for each part of the program, and the parts' bytes without gaps. Its numbers and names
//! serve who writes another kind of ELF file.
#![tactic(auto)]

mod elf;
mod fault;
mod header;
mod law;
mod layout;
mod object;
mod reading;
mod segment;
mod segments;
mod writing;

pub use elf::Elf;
pub use fault::{ElfFault, ElfWhy};
pub use law::{law_accepted_elf, law_reads_what_is_written};
pub use layout::{
    EXECUTE, FILE_HEADER_SIZE, IDENTIFICATION, LOADED, MIPS, PROGRAM_HEADER_SIZE, READ, VERSION,
    WRITE,
};
pub use object::{Object, Part};
pub use reading::read;
pub use segment::Segment;
pub use writing::{push_halves, push_words, write};
