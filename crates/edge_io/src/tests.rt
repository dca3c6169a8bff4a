//! What a shelf answers where a read fails in mid-stream.
use super::*;
use std::io;
use std::io::Read;
use std::test::Fail;

mod cabinet;

const HELLO: [u8; 5] = *b"hello";

/// A file that says hello, a byte at a time.
#[derive(Drop)]
struct Hello {
    at: usize,
    /// Where a read fails.
    fails_at: usize,
}

impl Read for Hello {
    fn read(&mut self, buf: &mut [u8]) -> io::Result<usize> {
        if self.at == self.fails_at {
            return Err(io::Error::from(io::ErrorKind::Other));
        }
        let (Some(byte), Some(to)) = (HELLO.get(self.at), buf.first_mut()) else {
            return Ok(0);
        };
        *to = *byte;
        self.at = self.at.saturating_add(1);
        Ok(1)
    }
}

/// A folder where each file says hello.
#[derive(Drop)]
struct Drawer {
    forecast: usize,
    fails_at: usize,
}

impl Folder for Drawer {
    ghost use Rattle.std.specs.Prelude.{None};

    type File = Hello;

    ghost told = { λ _. None };

    fn open(&self, _name: &str) -> Option<Opened<Hello>> {
        let file = Hello {
            at: 0,
            fails_at: self.fails_at,
        };
        let forecast = self.forecast.min(FILE_LIMIT);
        Some(Opened { file, forecast })
    }
}

#[test]
fn a_file_is_read_whole_or_not_at_all(rt: HostRuntime) -> Result<(), Fail> {
    for (forecast, fails_at) in [(0usize, 6usize), (2, 6), (5, 6), (9, 6), (5, 5), (5, 1)] {
        let mut shelf = HostShelf::new(rt.alloc(), Drawer { forecast, fails_at });
        let answer = shelf.read(rt.alloc(), "hello.txt");
        match (answer, shelf.contents()) {
            (Ok(()), [bytes]) => {
                assert_eq!(rt; (bytes.as_slice(), fails_at), (HELLO.as_slice(), 6));
            }
            (Err(ReadFail::Failed), []) => assert!(rt; fails_at < 6),
            _ => return Err(Fail::new("a read that neither kept its file nor failed")),
        }
        assert_eq!(rt; shelf.kept.calls, 1);
        assert_eq!(rt; shelf.kept.faults == 1, fails_at < 6);
    }
    Ok(())
}
