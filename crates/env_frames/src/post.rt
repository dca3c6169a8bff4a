//! The post words of the context page, and its records of pages that were taken.
ghost use Rattle.std.specs.Prelude.{◌≡◌, ◌<◌, length};
ghost use Rattle.aegis_limits.specs.Limits.{page_size};
ghost use Rattle.env_frames.specs.Post.{record_bytes, record_offset};

use byteorder::{ByteOrder, LittleEndian};
use frame_store::Frames;

/// Where the repossession vector begins in the context page: the records of pages that were taken from the environment
/// (`docs/KERNEL.md`, "The context page").
const REPOSSESSION_VECTOR: u32 = 0x180;

/// How many records the repossession vector has room for.
pub(crate) const MOST_RECORDS: u32 = 64;

/// How many bytes a record has: two words.
const RECORD_SIZE: usize = 8;

/// What stands in a record in place of a backup where there was none.
const NO_BACKUP: u32 = 0xFFFF_FFFF;

/// A word of the context page by which an environment learns of what comes from outside (`docs/KERNEL.md`, "The context
/// page").
#[derive(Clone, Copy)]
pub enum PostWord {
    /// How many packets came for the environment's claims.
    Packets,
    /// How many of them were lost, since the buffer that was next was full.
    Lost,
    /// A bit for each interrupt line of the environment's on which a signal came.
    Lines,
    /// How many pages were outstanding when the environment was last asked for some.
    Outstanding,
    /// The tick until which it was given time then.
    Deadline,
    /// How many pages were taken from it.
    Takings,
}

impl PostWord {
    ghost use Rattle.env_frames.specs.Post.{post_at, post_offset, posted};

    /// Where it stands in the context page.
    fn offset(self) -> u32
        ensures { result ≡ post_offset self }
    {
        match self {
            PostWord::Packets => 0x140,
            PostWord::Lost => 0x144,
            PostWord::Lines => 0x148,
            PostWord::Outstanding => 0x14C,
            PostWord::Deadline => 0x150,
            PostWord::Takings => 0x17C,
        }
    }

    /// Its value in the context page, which is this page.
    pub(crate) fn value(self, frames: &Frames, page: u32) -> u32
        requires { page < length frames.now }
        ensures { result ≡ post_at frames.now page self }
    {
        frames.word(page, self.offset())
    }

    /// Gives it a value in the context page, which is this page.
    pub(crate) fn set(self, frames: &mut Frames, page: u32, value: u32)
        requires { page < length frames.old }
        ensures frames { frames.new ≡ posted frames.old page self value }
        ensures size { length frames.new ≡ length frames.old }
    {
        frames.set_word(page, self.offset(), value);
    }
}

/// Where the record of this number stands in the context page.
pub(crate) fn record_offset(number: u32) -> u32
    requires { record_offset number < page_size }
    ensures { result ≡ record_offset number }
{
    REPOSSESSION_VECTOR + RECORD_SIZE as u32 * number
}

/// The bytes of the record of a page that was taken: its number, and that of the backup that got a copy of it, in words
/// whose lowest byte stands first.
pub(crate) fn record_bytes(page: u32, backup: Option<u32>) -> [u8; RECORD_SIZE]
    ensures { result ≡ record_bytes page backup }
{
    let mut bytes = [0; RECORD_SIZE];
    LittleEndian::write_u32_into(&[page, backup.unwrap_or(NO_BACKUP)], &mut bytes);
    bytes
}
