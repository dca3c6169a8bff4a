//! Whole runs of the program in memory: a shelf and a sink of which all is known, and calls of the program over them. By
//! these a host other than a command line calls the program, as a page, a notebook or a bench for tests.
//!
//! The shelf and the sink meet the traits of `edge_io` with each clause at its strongest: what is told of files and of
//! what was written is told here, and which reads and writes are sure not to fail is known. So those clauses ask for
//! nothing that can't be had. A call that is set to fail fails. The program itself has the host's files and its standard
//! output in their place. `MemoryFolder` has files that `program_over`, which `main` calls, opens and reads: with a writer in
//! memory all that its clauses name is told.
#![tactic(auto)]

mod folder;
mod running;
mod shelf;
mod sink;
#[cfg(test)]
mod tests;

pub use aegis_command::Status;
pub use folder::MemoryFolder;
pub use running::{Output, call, run_in_memory};
pub use shelf::MemoryShelf;
pub use sink::MemorySink;
