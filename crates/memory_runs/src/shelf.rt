//! A shelf of files in memory.
ghost use Rattle.std.specs.Prelude.{◌≡◌, ◌≤◌, [], ◌∷◌, ◌++◌, Some, None, IsSomeAnd, IsErr, OnOk, true};
ghost use Rattle.std.specs.Option.{option_copied};
ghost use Rattle.edge_io.specs.Reads.{AddsRead, OnFailed, held, no_readings, readings_seen};
ghost use Rattle.memory_runs.specs.Files.{IsSureOf, file_named, found, found_at, is_set_to_fail};

use edge_io::{FILE_LIMIT, ReadFail, Readings, Shelf};
use std::alloc::Global;

/// Files in memory. Of two files with one name the first counts. Each read has a number, counted
/// from 0, and fails where its number is in `fails`, where the name isn't there, or where its file
/// has more than `FILE_LIMIT` bytes.
#[derive(Drop)]
pub struct MemoryShelf {
    /// Names and bytes.
    pub files: Vec<(String, Vec<u8>)>,
    /// The numbers of the reads that fail.
    pub fails: Vec<u64>,
    /// Its reads.
    pub kept: Readings,
}

/// The bytes of the first file of this name.
pub(crate) fn file_named<'a>(files: &'a [(String, Vec<u8>)], name: &str) -> Option<&'a [u8]>
    ensures { option_copied result ≡ file_named files.now name.now }
{
    files
        .iter()
        .find(|file| file.0.as_str() == name)
        .map(|file| file.1.as_slice())
}

impl MemoryShelf {
    /// A shelf of these files, on which the reads of these numbers fail. It read none so far.
    pub fn new(alloc: Global, files: Vec<(String, Vec<u8>)>, fails: Vec<u64>) -> MemoryShelf
        ensures files { result.files ≡ files }
        ensures fails { result.fails ≡ fails }
        ensures nothing_read { readings_seen result.kept ≡ no_readings }
    {
        MemoryShelf {
            files,
            fails,
            kept: Readings::new(alloc),
        }
    }

    // The bytes that the read of this number finds.
    fn found(&self, call: u64, name: &str) -> Option<&[u8]>
        ensures { option_copied result ≡ found_at self.now.files.items self.now.fails.items call name.now }
    {
        if self.fails.contains(&call) {
            return None;
        }
        let bytes = file_named(&self.files, name)?;
        if bytes.len() <= FILE_LIMIT {
            Some(bytes)
        } else {
            None
        }
    }
}

impl Shelf for MemoryShelf {
    ghost told = { λ s. Some (file_named s.files.items) };

    ghost readings = { λ s. readings_seen s.kept };

    ghost Serves = { IsSureOf };

    ghost Refuses = { λ s. is_set_to_fail s ≡ true };

    /// Fails exactly where the number of the read is in `fails`, where the name isn't there, or
    /// where its file is too long, if memory is found.
    fn read(&mut self, alloc: Global, name: &str) -> Result<(), ReadFail>
        ensures bytes { OnOk result (IsSomeAnd (found self.old name.now) (λ bytes. held self.new.kept.contents.items ≡ held self.old.kept.contents.items ++ bytes ∷ [])) }
        ensures fails { OnFailed result (found self.old name.now ≡ None) }
        ensures set_to_fail { is_set_to_fail self.old ≡ true → IsErr result }

        ensures same_files { self.new.files ≡ self.old.files }
        ensures same_fails { self.new.fails ≡ self.old.fails }

        // What every shelf ensures, as far as the clauses above don't say it.
        ensures added { AddsRead (Some (file_named self.old.files.items)) name.now (readings_seen self.old.kept) (readings_seen self.new.kept) result }
        ensures never_falls { self.old.kept.faults ≤ self.new.kept.faults }
    {
        let call = self.kept.calls;
        self.kept.calls = call.saturating_add(1);
        let title = String::from_str(alloc, name)?;
        match self.found(call, name) {
            Some(bytes) => {
                let bytes = Vec::from_slice(alloc, bytes)?;
                Ok(self.kept.keep(title, bytes)?)
            }
            None => {
                self.kept.count_failure(title);
                Err(ReadFail::Failed)
            }
        }
    }

    fn contents(&self) -> &[Vec<u8>] {
        &self.kept.contents
    }
}
