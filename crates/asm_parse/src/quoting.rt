//! Quoted texts, inside of which no comment begins and no comma parts operands.
ghost use Rattle.std.specs.Prelude.{◌≡◌};

/// Where a byte of a line stands.
#[derive(Clone, Copy)]
pub(crate) enum Quoting {
    /// Outside each quoted text, or at an opening mark.
    Outside,
    /// Inside a quoted text, or at its closing mark.
    Inside,
    /// Inside a quoted text, directly behind a backslash.
    Escape,
}

impl Quoting {
    ghost use Rattle.asm_parse.specs.Form.{behind, is_outside};

    /// Where the byte after this one stands.
    pub(crate) fn behind(self, byte: u8) -> Quoting
        ensures { result ≡ behind self byte }
    {
        match (self, byte) {
            (Quoting::Outside, b'"') => Quoting::Inside,
            (Quoting::Outside, _) => Quoting::Outside,
            (Quoting::Inside, b'"') => Quoting::Outside,
            (Quoting::Inside, b'\\') => Quoting::Escape,
            (Quoting::Inside, _) => Quoting::Inside,
            (Quoting::Escape, _) => Quoting::Inside,
        }
    }

    /// Whether it is outside.
    pub(crate) fn is_outside(self) -> bool
        ensures { result ≡ is_outside self }
    {
        matches!(self, Quoting::Outside)
    }
}
