//! Pieces of the source.
ghost use Rattle.std.specs.Prelude.{◌≡◌, ◌+◌, ◌^◌, ◌<◌, ◌≤◌, length};

use crate::blanks::blanks_behind;
use line_text::blanks_before;

/// Bytes of the source, and the place where they stand.
#[derive(Clone, Copy)]
pub(crate) struct Piece<'a> {
    pub(crate) start: u32,
    pub(crate) bytes: &'a [u8],
    ghost within: { start + length bytes.now < 2 ^ 32 },
}

impl<'a> Piece<'a> {
    ghost use Rattle.std.specs.Prelude.{◌≡◌, ◌+◌, ◌≤◌, length};
    ghost use Rattle.asm_parse.specs.Form.{after_blanks, front, skip, trimmed};
    ghost use Rattle.asm_parse.specs.PieceSeen.{piece_seen};

    /// The place behind its last byte.
    pub(crate) fn end(self) -> u32
        ensures { result ≡ self.entry.start + length self.entry.bytes.now }
    {
        self.start + self.bytes.len() as u32
    }

    /// So many bytes at the front.
    pub(crate) fn front(self, count: usize) -> Piece<'a>
        requires { count ≤ length self.bytes.now }
        ensures { piece_seen result ≡ front count (piece_seen self.entry) }
    {
        Piece {
            start: self.start,
            bytes: &self.bytes[..count],
        }
    }

    /// What is left without so many bytes at the front.
    pub(crate) fn skip(self, count: usize) -> Piece<'a>
        requires { count ≤ length self.bytes.now }
        ensures { piece_seen result ≡ skip count (piece_seen self.entry) }
    {
        Piece {
            start: self.start + count as u32,
            bytes: &self.bytes[count..],
        }
    }

    /// Without the blanks at the front.
    pub(crate) fn after_blanks(self) -> Piece<'a>
        ensures { piece_seen result ≡ after_blanks (piece_seen self.entry) }
    {
        self.skip(blanks_before(self.bytes))
    }

    /// Without the blanks around it.
    pub(crate) fn trimmed(self) -> Piece<'a>
        ensures { piece_seen result ≡ trimmed (piece_seen self.entry) }
    {
        let piece = self.after_blanks();
        Piece {
            start: piece.start,
            bytes: &piece.bytes[..piece.bytes.len() - blanks_behind(piece.bytes)],
        }
    }
}
