//! A segment of a program.
ghost use Rattle.std.specs.Prelude.{◌≡◌, ◌+◌};

/// The first address at which a segment may stand.
pub(crate) const LEAST_VADDR: u32 = 0x2000;

/// A part of a program's memory.
#[derive(Clone, Copy)]
pub struct Segment<'a> {
    /// The address of the first byte, at or above 0x2000.
    pub vaddr: u32,
    /// The first bytes, lent from the file. All further ones are zeros.
    pub bytes: &'a [u8],
    /// How many bytes there are in memory, at least one. They end at or below 0x7FF00000.
    pub memsz: u32,
    /// Whether stores into the segment are allowed.
    pub writable: bool,
}

impl Segment<'_> {
    /// The address behind the last byte.
    pub(crate) fn end(&self) -> u64
        ensures { result ≡ self.now.vaddr + self.now.memsz }
    {
        u64::from(self.vaddr) + u64::from(self.memsz)
    }
}

impl Default for Segment<'_> {
    ghost use Rattle.std.specs.Prelude.{[], false};
    ghost use Rattle.elf_static.specs.SegmentSeen.{segment_seen};

    ghost is_default = { λ segment. segment_seen segment ≡ record { vaddr = 0; bytes = []; memsz = 0; writable = false } };

    fn default() -> Self {
        Segment {
            vaddr: 0,
            bytes: &[],
            memsz: 0,
            writable: false,
        }
    }
}
