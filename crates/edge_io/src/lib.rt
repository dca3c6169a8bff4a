//! The edge of the program: where it reads files and where it writes its text.
//!
//! A `Shelf` reads named files, keeps what its reads gave and lends it, and a `Sink` takes bytes.
//! Each counts its faults, so that a caller's failure of reading or writing is one that the outside
//! caused, and of a shelf it is known which files were read, in which order, and what the reads
//! gave. What it keeps are `Readings`. `HostShelf` reads the files that a `Folder` opens, as the
//! host does, and `HostSink` writes to a writer, as to the standard output. `write_whole` writes all
//! of a text.
#![tactic(auto)]

mod folder;
mod host_shelf;
mod host_sink;
mod readings;
mod shelf;
mod sink;
#[cfg(test)]
mod tests;
mod whole;

pub use folder::{Folder, Opened};
pub use host_shelf::HostShelf;
pub use host_sink::HostSink;
pub use readings::Readings;
pub use shelf::{FILE_LIMIT, ReadFail, Shelf};
pub use sink::{Sink, WriteFail};
pub use whole::write_whole;
