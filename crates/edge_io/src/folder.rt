//! Where files are opened.
ghost use Rattle.std.specs.Prelude.{◌≡◌, ℕ, ◌≤◌, List, Option, None, IfSome};
ghost use Rattle.edge_io.specs.Limits.{file_limit, limited_length};
ghost use Rattle.edge_io.specs.Reads.{IsFileOf};

use crate::shelf::FILE_LIMIT;
use std::fs::{File, OpenFile};
use std::io::Read;
use std::rt::Files;

/// An open file.
#[derive(Drop)]
pub struct Opened<F> {
    /// The file, read from its beginning.
    pub file: F,
    /// How many bytes it is said to have.
    pub forecast: usize,
}

/// Opens files by their names.
pub trait Folder {
    /// An open file.
    type File: Read + Drop;

    // The bytes of each name, where the folder says what it holds.
    ghost told: { Self → Option (List ℕ → Option (List ℕ)) };

    /// The file of this name, if it can be opened and isn't said to be too long.
    fn open(&self, name: &str) -> Option<Opened<Self::File>>
        ensures held { IfSome result (λ opened. IsFileOf (told self.now) name.now (Self.File.remaining opened.file)) }
        ensures forecast { IfSome result (λ opened. opened.forecast ≤ file_limit) };
}

// This length, where a file may be so long.
fn limited_length(length: u64) -> Option<usize>
    ensures { result ≡ limited_length length }
{
    if length <= FILE_LIMIT as u64 {
        Some(length as usize)
    } else {
        None
    }
}

// The length of an open file as the host tells it, where a file may be so long.
fn told_length<F: OpenFile>(file: &F) -> Option<usize>
    ensures { IfSome result (λ n. n ≤ file_limit) }
{
    limited_length(file.metadata().ok()?.len())
}

/// The host's files, of which nothing is told.
impl<R: Files> Folder for R {
    type File = R::File;

    ghost told = { λ _. None };

    fn open(&self, name: &str) -> Option<Opened<R::File>> {
        let file = File::open(self, name).ok()?;
        let forecast = told_length(&file)?;
        Some(Opened { file, forecast })
    }
}
