//! The two buffers of a ring.
ghost use Rattle.std.specs.Prelude.{◌≡◌};

/// A buffer of a ring (`docs/KERNEL.md`, "What happens from outside").
#[derive(Clone, Copy)]
pub enum Buffer {
    /// The first half of the page.
    First,
    /// The second half.
    Second,
}

impl Buffer {
    ghost use Rattle.packet_ring.specs.Ring.{buffer_offset, other_buffer};

    /// Where it begins in its page, in bytes.
    pub fn offset(self) -> u32
        ensures { result ≡ buffer_offset self }
    {
        match self {
            Buffer::First => 0x000,
            Buffer::Second => 0x800,
        }
    }

    /// The buffer whose turn is after this one's.
    pub fn other(self) -> Buffer
        ensures { result ≡ other_buffer self }
    {
        match self {
            Buffer::First => Buffer::Second,
            Buffer::Second => Buffer::First,
        }
    }
}
