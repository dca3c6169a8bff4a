//! Files in memory that are opened and read, as the host's are.
ghost use Rattle.std.specs.Prelude.{Some};
ghost use Rattle.memory_runs.specs.Files.{file_named};

use crate::shelf::file_named;
use edge_io::{FILE_LIMIT, Folder, Opened};

/// Files in memory, of which the first of a name counts. It tells what they hold.
#[derive(Drop)]
pub struct MemoryFolder {
    /// Names and bytes.
    pub files: Vec<(String, Vec<u8>)>,
}

impl<'a> Folder for &'a MemoryFolder {
    type File = &'a [u8];

    ghost told = { λ folder. Some (file_named folder.now.files.items) };

    fn open(&self, name: &str) -> Option<Opened<&'a [u8]>> {
        let folder: &'a MemoryFolder = *self;
        let file = file_named(&folder.files, name)?;
        Some(Opened {
            file,
            forecast: file.len().min(FILE_LIMIT),
        })
    }
}
