//! Numbers in memory.

/// How many bytes a number takes.
#[derive(Clone, Copy)]
pub enum NumberSize {
    /// One byte.
    Byte,
    /// Two bytes.
    Half,
    /// Four bytes.
    Word,
}

impl NumberSize {
    ghost use Rattle.std.specs.Prelude.{◌≡◌, ◌<◌};
    ghost use Rattle.asm_layout.specs.Content.{number_length};

    /// How many bytes.
    pub(crate) fn length(self) -> u32
        ensures value { result ≡ number_length self }
        ensures some { 0 < result }
    {
        match self {
            NumberSize::Byte => 1,
            NumberSize::Half => 2,
            NumberSize::Word => 4,
        }
    }
}
