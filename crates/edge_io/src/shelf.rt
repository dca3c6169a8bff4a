//! What files are read from.
ghost use Rattle.std.specs.Prelude.{◌≡◌, ◌↔◌, ℕ, ◌≤◌, List, Option, OnOk};
ghost use Rattle.edge_io.specs.Reads.{AddsRead, OnFailed, ReadingsValue, held};
ghost use Rattle.std.specs.IoError.{error_kind};
ghost use Rattle.std.specs.declared.io.ErrorKind.TheVariants as kind;
ghost use Rattle.edge_io.specs.declared.shelf.ReadFail.TheVariants.{OutOfMemory};

use std::alloc::{AllocError, AllocFailed, Global};
use std::io;
use std::io::ErrorKind;

/// The most bytes that a file may have: 64 MiB.
pub const FILE_LIMIT: usize = 67_108_864;

/// Why a read gave no bytes.
#[derive(Clone, Copy)]
pub enum ReadFail {
    /// The file couldn't be read, there is none, or it has more than `FILE_LIMIT` bytes. The shelf
    /// counted it as a fault.
    Failed,
    /// No memory was found for the name or for the bytes, or to keep them.
    OutOfMemory,
}

impl From<AllocError> for ReadFail {
    ghost from_gives = { λ _ e. e ≡ OutOfMemory };

    fn from(_e: AllocError) -> ReadFail {
        ReadFail::OutOfMemory
    }
}

impl<T: Drop> From<AllocFailed<T>> for ReadFail {
    ghost from_gives = { λ _ e. e ≡ OutOfMemory };

    fn from(_e: AllocFailed<T>) -> ReadFail {
        ReadFail::OutOfMemory
    }
}

/// An error of reading, but for want of memory, is a failure.
impl From<io::Error> for ReadFail {
    ghost from_gives = { λ e fail. (fail ≡ OutOfMemory) ↔ (error_kind e ≡ kind.OutOfMemory) };

    fn from(e: io::Error) -> ReadFail {
        match e.kind() {
            ErrorKind::OutOfMemory => ReadFail::OutOfMemory,
            _ => ReadFail::Failed,
        }
    }
}

/// Files by name. A shelf keeps the files that it read, and lends their contents.
pub trait Shelf {
    // The bytes of each name, where the shelf says what it holds. No call changes it.
    ghost told: { Self → Option (List ℕ → Option (List ℕ)) };

    // What it has read.
    ghost readings: { Self → ReadingsValue };

    // A read of this name is sure not to fail but for want of memory.
    ghost Serves: { Self → List ℕ → Type 0 };

    // The next read is sure to give no bytes.
    ghost Refuses: { Self → Type 0 };

    /// Reads the file of this name, of at most `FILE_LIMIT` bytes, and keeps its name and its bytes
    /// behind those of the files before. The memory for the name is taken first, so that a shelf can
    /// keep the name of a read that fails.
    fn read(&mut self, alloc: Global, name: &str) -> Result<(), ReadFail>
        ensures same_files { told self.new ≡ told self.old }
        ensures added { AddsRead (told self.old) name.now (readings self.old) (readings self.new) result }
        ensures never_falls { (readings self.old).faults ≤ (readings self.new).faults }

        ensures served { OnFailed result (¬ Serves self.old name.now) }
        ensures serves_on { (n : List ℕ) → Serves self.old n → Serves self.new n }
        ensures refused { OnOk result (¬ Refuses self.old) };

    /// The contents of all files that were read, in the order of the reads.
    fn contents(&self) -> &[Vec<u8>]
        ensures { held result.now ≡ (readings self.now).contents };
}
