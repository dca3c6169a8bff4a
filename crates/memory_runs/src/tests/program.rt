//! The program that `main` calls, over files and writers in memory, which tell, and over a file of the host's.
use super::*;
use aegis_program::program_over;
use std::fs::{self, File};
use std::io::{self, ErrorKind, Write};

/// Where the host writes a report.
const REPORT_FILE: &str = "/tmp/aegis-two.report";

/// A writer that takes a few bytes at a time, is interrupted before each, and is full at last.
#[derive(Drop)]
struct Choppy {
    bytes: Vec<u8>,
    /// How many bytes one write takes at most.
    most: usize,
    /// How many bytes there is room for in all.
    room: usize,
    /// Whether the last write was interrupted.
    interrupted: bool,
}

impl Write for Choppy {
    ghost use Rattle.std.specs.Prelude.{Some};

    ghost contents = { λ c. Some c.bytes.items };

    fn write(&mut self, buf: &[u8]) -> io::Result<usize> {
        self.interrupted = !self.interrupted;
        if self.interrupted {
            return Err(io::Error::from(ErrorKind::Interrupted));
        }
        let left = self.room.saturating_sub(self.bytes.len());
        let taken = buf.len().min(self.most).min(left);
        self.bytes.extend_from_slice(&buf[..taken])?;
        Ok(taken)
    }

    fn flush(&mut self) -> io::Result<()> {
        Ok(())
    }
}

/// The files of a run.
fn files_of_a_run(alloc: Global) -> Result<MemoryFolder, Fail> {
    let (_, image) = program_and_image(alloc)?;
    let files = files(alloc, &[("two.img", &image), ("none.sch", b"")])?;
    Ok(MemoryFolder { files })
}

#[test]
fn memory_and_a_file_get_the_same_report(rt: HostRuntime) -> Result<(), Fail> {
    let alloc = rt.alloc();
    let folder = files_of_a_run(alloc)?;
    let words = strings(alloc, RUN_WORDS)?;
    let told = program_over(alloc, &words, &folder, Vec::new(alloc));
    assert_eq!(rt; told.status.code(), Status::Done.code());
    assert_eq!(rt; told.out.as_slice(), REPORT);
    assert_eq!(rt; (told.read.calls, told.faults), (2, 0));

    let file = File::create(&rt, REPORT_FILE)?;
    let written = program_over(alloc, &words, &folder, file);
    assert_eq!(rt; written.status.code(), Status::Done.code());
    let bytes = fs::read(&rt, REPORT_FILE)?;
    fs::remove_file(&rt, REPORT_FILE)?;
    assert_eq!(rt; bytes.as_slice(), told.out.as_slice());
    Ok(())
}

#[test]
fn a_writer_that_is_full_has_a_first_part(rt: HostRuntime) -> Result<(), Fail> {
    let alloc = rt.alloc();
    let folder = files_of_a_run(alloc)?;
    let words = strings(alloc, RUN_WORDS)?;
    for (most, room) in [
        (1usize, 0usize),
        (3, 1),
        (7, 100),
        (64, 195),
        (1, 196),
        (500, 197),
    ] {
        let out = Choppy {
            bytes: Vec::new(alloc),
            most,
            room,
            interrupted: false,
        };
        let ended = program_over(alloc, &words, &folder, out);
        let (status, length) = if room < REPORT.len() {
            (Status::WriteFault, room)
        } else {
            (Status::Done, REPORT.len())
        };
        assert_eq!(rt; ended.status.code(), status.code());
        assert_eq!(rt; ended.out.bytes.as_slice(), &REPORT[..length]);
        assert_eq!(rt; ended.faults == 1, room < REPORT.len());
    }
    Ok(())
}
