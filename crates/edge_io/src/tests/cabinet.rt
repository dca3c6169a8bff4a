//! Which file of the host's a shelf opens, and what it makes of the length that the host tells: with files of the test's
//! own in the host's place.
ghost use Rattle.std.specs.Prelude.{IsErr};

use super::*;
use std::alloc::Allocator;
use std::cell::Cell;
use std::fs::{Metadata, OpenFile, OpenOptions};
use std::io;
use std::io::{ErrorKind, Read, Seek, SeekFrom, Write};
use std::rt::Files;
use std::test::Fail;

/// A file: one byte, so many times.
#[derive(Clone, Copy)]
struct Sheet {
    name: &'static str,
    byte: u8,
    length: usize,
    /// The length that is told of it.
    told: u64,
}

/// Files by name.
#[derive(Drop)]
struct Cabinet<'a> {
    sheets: &'a [Sheet],
    /// How many reads there were.
    reads: &'a Cell<u64>,
}

/// A file that is read.
#[derive(Drop)]
struct OpenSheet<'a> {
    sheet: Sheet,
    /// How many bytes are left.
    left: usize,
    reads: &'a Cell<u64>,
}

fn unsupported<T>() -> io::Result<T>
    ensures { IsErr result }
{
    Err(io::Error::from(ErrorKind::Unsupported))
}

impl Read for OpenSheet<'_> {
    fn read(&mut self, buf: &mut [u8]) -> io::Result<usize> {
        self.reads.set(self.reads.get().saturating_add(1));
        let count = self.left.min(buf.len());
        buf[..count].fill(self.sheet.byte);
        self.left -= count;
        Ok(count)
    }
}

impl Write for OpenSheet<'_> {
    fn write(&mut self, _buf: &[u8]) -> io::Result<usize> {
        unsupported()
    }

    fn flush(&mut self) -> io::Result<()> {
        unsupported()
    }
}

impl Seek for OpenSheet<'_> {
    fn seek(&mut self, _to: SeekFrom) -> io::Result<u64> {
        unsupported()
    }
}

impl OpenFile for OpenSheet<'_> {
    fn metadata(&self) -> io::Result<Metadata> {
        Ok(Metadata::of_file(self.sheet.told))
    }

    fn set_len(&self, _size: u64) -> io::Result<()> {
        unsupported()
    }

    fn sync_all(&self) -> io::Result<()> {
        unsupported()
    }

    fn sync_data(&self) -> io::Result<()> {
        unsupported()
    }
}

impl<'a> Files for Cabinet<'a> {
    type File = OpenSheet<'a>;

    type Dir = OpenSheet<'a>;

    fn open_file(&self, _how: &OpenOptions, path: &str) -> io::Result<OpenSheet<'a>> {
        let Some(sheet) = self.sheets.iter().find(|sheet| sheet.name == path) else {
            return Err(io::Error::from(ErrorKind::NotFound));
        };
        Ok(OpenSheet {
            sheet: *sheet,
            left: sheet.length,
            reads: self.reads,
        })
    }

    fn open_dir(&self, _path: &str) -> io::Result<OpenSheet<'a>> {
        unsupported()
    }

    fn metadata(&self, _path: &str) -> io::Result<Metadata> {
        unsupported()
    }

    fn symlink_metadata(&self, _path: &str) -> io::Result<Metadata> {
        unsupported()
    }

    fn copy(&self, _from: &str, _to: &str) -> io::Result<u64> {
        unsupported()
    }

    fn rename(&self, _from: &str, _to: &str) -> io::Result<()> {
        unsupported()
    }

    fn remove_file(&self, _path: &str) -> io::Result<()> {
        unsupported()
    }

    fn create_dir(&self, _path: &str) -> io::Result<()> {
        unsupported()
    }

    fn remove_dir(&self, _path: &str) -> io::Result<()> {
        unsupported()
    }

    fn remove_dir_all<B: Allocator>(&self, _alloc: B, _path: &str) -> io::Result<()> {
        unsupported()
    }
}

/// Files whose length is told right, too short and too long, and some that are told to be as long as a file may be, or
/// longer.
fn sheets() -> [Sheet; 10] {
    let limit = FILE_LIMIT as u64;
    [
        filled("right", b'a', 5, 5),
        filled("page", b'b', 4097, 4097),
        filled("grown", b'c', 9, 2),
        filled("pipe", b'd', 7, 0),
        filled("cut", b'e', 3, 900),
        filled("gone", b'f', 0, 5),
        filled("empty", b'g', 0, 0),
        filled("limit", b'h', 1, limit),
        filled("over", b'i', 1, limit + 1),
        filled("far_over", b'j', 1, u64::MAX),
    ]
}

fn filled(name: &'static str, byte: u8, length: usize, told: u64) -> Sheet {
    Sheet {
        name,
        byte,
        length,
        told,
    }
}

#[test]
fn the_told_length_is_the_forecast_up_to_the_limit(rt: HostRuntime) -> Result<(), Fail> {
    let (sheets, reads) = (sheets(), Cell::new(0));
    let cabinet = Cabinet {
        sheets: &sheets,
        reads: &reads,
    };
    for sheet in &sheets {
        match cabinet.open(sheet.name) {
            Some(opened) => {
                assert_eq!(rt; opened.file.sheet.byte, sheet.byte);
                assert_eq!(rt; opened.forecast as u64, sheet.told);
            }
            None => assert!(rt; sheet.told > FILE_LIMIT as u64),
        }
    }
    assert_eq!(rt; reads.get(), 0);
    Ok(())
}

#[test]
fn the_named_file_is_read_whole_whatever_is_told(rt: HostRuntime) -> Result<(), Fail> {
    let (sheets, reads) = (sheets(), Cell::new(0));
    let cabinet = Cabinet {
        sheets: &sheets,
        reads: &reads,
    };
    let mut shelf = HostShelf::new(rt.alloc(), cabinet);
    for sheet in sheets.iter().filter(|sheet| sheet.told < FILE_LIMIT as u64) {
        let answer = shelf.read(rt.alloc(), sheet.name);
        let (Ok(()), Some(bytes)) = (answer, shelf.contents().last()) else {
            return Err(Fail::new("a file that wasn't read"));
        };
        assert_eq!(rt; bytes.len(), sheet.length);
        assert!(rt; bytes.iter().all(|byte| *byte == sheet.byte));
    }
    let made = reads.get();
    for name in ["over", "far_over", "none"] {
        let answer = shelf.read(rt.alloc(), name);
        assert!(rt; matches!(answer, Err(ReadFail::Failed)));
    }
    assert_eq!(rt; reads.get(), made);
    Ok(())
}
