//! The core of an environment: its registers, the pages that it sees, and what the kernel keeps of it, as an ELF core file
//! for debuggers (`docs/REPORT.md`, "The core"). The file is proved to be its definition in `specs/Core.antt`.
#![tactic(auto)]

mod file;
mod notes;
mod pages;
mod runs;
mod writing;

pub use writing::core;
