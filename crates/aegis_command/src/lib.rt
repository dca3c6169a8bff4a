//! The program's commands over any shelf of files and any sink.
//!
//! `aegis` is the top call. Its clauses say, for every shelf and every sink, which files are read, what is written, and
//! with which status the program ends; the headline is that what `run` and `long` write is the report of the world. What a command
//! is, and how a call ends, is defined in `commands`, on which this stands; `Words` here has the table of commands.
#![tactic(auto)]

mod audit_ledger;
mod core_env;
mod ended_run;
mod load_seed;
mod long_run;
mod ranged;
mod run_bare;
mod run_image;
mod system_command;
mod system_files;
mod tlb_image;
mod top;
mod trace_env;
mod twin_systems;
mod wire_machines;
mod words;

pub use commands::Status;
pub use top::aegis;
