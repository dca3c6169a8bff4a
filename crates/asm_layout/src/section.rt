//! The sections of a program.
ghost use Rattle.std.specs.Prelude.{◌≡◌};

/// A section of a program.
#[derive(Clone, Copy)]
pub enum Section {
    /// Instructions, and data that may not be written.
    Text,
    /// Data that may be written.
    Data,
}

/// The most bytes that a section may have.
pub(crate) const SECTION_LIMIT: u32 = 1 << 20;

impl Section {
    ghost use Rattle.std.specs.Prelude.{◌≡◌};
    ghost use Rattle.asm_layout.specs.Layout.{base_of};

    /// The address of its first byte.
    pub fn base(self) -> u32
        ensures { result ≡ base_of self }
    {
        match self {
            Section::Text => 0x0040_0000,
            Section::Data => 0x1000_0000,
        }
    }
}
