//! The characters of names.
ghost use Rattle.std.specs.Prelude.{◌≡◌};
ghost use Rattle.asm_parse.specs.Bytes.{is_name_byte, is_name_start};

/// Whether a name may begin with it.
pub(crate) fn is_name_start(byte: u8) -> bool
    ensures { result ≡ is_name_start byte }
{
    byte.is_ascii_alphabetic() || byte == b'_' || byte == b'.'
}

/// Whether a name may go on with it.
pub(crate) fn is_name_byte(byte: u8) -> bool
    ensures { result ≡ is_name_byte byte }
{
    is_name_start(byte) || byte.is_ascii_digit()
}
