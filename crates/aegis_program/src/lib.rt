//! The program over any files and any writer.
//!
//! `program_over` is what `main` calls, with the host's files and its standard output: the top call of `aegis_command` over a
//! `HostShelf` and a `HostSink`. It is one function for every place where files are opened and for every writer, and is
//! proved for all of them. Of those that tell what they hold its clauses name the bytes. The host's tell nothing.
#![tactic(auto)]

mod program;

pub use program::{Ended, program_over};
