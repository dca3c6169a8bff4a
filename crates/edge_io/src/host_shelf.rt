//! Files in a folder, as the host's.
ghost use Rattle.std.specs.Prelude.{◌≡◌, ◌<◌, ◌≤◌, IfOk, IfSome, IsErr, length};
ghost use Rattle.edge_io.specs.Limits.{file_limit};
ghost use Rattle.edge_io.specs.Reads.{Tells, no_readings, readings_seen};

use crate::folder::{Folder, Opened};
use crate::readings::Readings;
use crate::shelf::{FILE_LIMIT, ReadFail, Shelf};
use std::alloc::Global;
use std::io::Read;

/// The files of a folder. It tells of them what the folder tells: of the host's, nothing. What it
/// read it keeps.
#[derive(Drop)]
pub struct HostShelf<D: Folder> {
    /// Where its files are opened.
    pub folder: D,
    /// Its reads.
    pub kept: Readings,
}

impl<D: Folder> HostShelf<D> {
    /// A shelf over this folder, with no read so far.
    pub fn new(alloc: Global, folder: D) -> HostShelf<D>
        ensures folder { result.folder ≡ folder }
        ensures nothing_read { readings_seen result.kept ≡ no_readings }
    {
        HostShelf {
            folder,
            kept: Readings::new(alloc),
        }
    }
}

// All that is left of a reader, if it is no more than a file may have. The memory for the forecast
// is taken at once, and a byte more, so that the end is met without growth.
fn read_rest<F: Read + Drop>(alloc: Global, opened: Opened<F>) -> Result<Vec<u8>, ReadFail>
    requires { opened.forecast ≤ file_limit }
    ensures whole { IfOk result (λ v. IfSome (F.remaining opened.file) (λ rest. v.items ≡ rest)) }
    ensures within_limit { IfOk result (λ v. length v.items ≤ file_limit) }
    ensures too_long { IfSome (F.remaining opened.file) (λ rest. file_limit < length rest → IsErr result) }
{
    let mut bytes = Vec::with_capacity(alloc, opened.forecast + 1)?;
    opened
        .file
        .take(FILE_LIMIT as u64 + 1)
        .read_to_end(&mut bytes)?;
    if bytes.len() <= FILE_LIMIT {
        Ok(bytes)
    } else {
        Err(ReadFail::Failed)
    }
}

// All bytes of a file of the folder, if they are no more than a file may have.
fn read_file<D: Folder>(folder: &D, alloc: Global, name: &str) -> Result<Vec<u8>, ReadFail>
    ensures bytes { IfOk result (λ v. Tells (D.told folder.now) name.now v.items) }
    ensures within_limit { IfOk result (λ v. length v.items ≤ file_limit) }
{
    let Some(opened) = folder.open(name) else {
        return Err(ReadFail::Failed);
    };
    read_rest(alloc, opened)
}

impl<D: Folder> Shelf for HostShelf<D> {
    ghost told = { λ s. D.told s.folder };

    ghost readings = { λ s. readings_seen s.kept };

    // Nothing is sure of the host.
    ghost Serves = { λ _ _. ⊥ };

    ghost Refuses = { λ _. ⊥ };

    fn read(&mut self, alloc: Global, name: &str) -> Result<(), ReadFail> {
        self.kept.calls = self.kept.calls.saturating_add(1);
        let title = String::from_str(alloc, name)?;
        match read_file(&self.folder, alloc, name) {
            Ok(bytes) => Ok(self.kept.keep(title, bytes)?),
            Err(ReadFail::Failed) => {
                self.kept.count_failure(title);
                Err(ReadFail::Failed)
            }
            Err(ReadFail::OutOfMemory) => Err(ReadFail::OutOfMemory),
        }
    }

    fn contents(&self) -> &[Vec<u8>] {
        &self.kept.contents
    }
}
