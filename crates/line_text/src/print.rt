//! What is written into texts: numbers and quoted bytes. Each push appends its text whole, or answers
//! that memory ran out and leaves the list as it was.
ghost use Rattle.std.specs.Prelude.{◌≡◌, ◌+◌, ◌*◌, ◌<◌, ◌≤◌, ◌++◌, length, take, OnOk, OnErr};
ghost use Rattle.std.specs.Char.{digit_char};
ghost use Rattle.line_text.specs.Text.{dec_text, hex_text, quoted_byte, quoted_text};

use aegis_limits::OutOfMemory;
use itoa::Buffer;

/// The hexadecimal digits of a number of 32 bits.
pub(crate) const WORD_DIGITS: usize = 8;

/// The most glyphs that a byte takes between quotation marks.
const QUOTED_GLYPHS: usize = 4;

/// Appends a number in decimal, without leading zeros.
#[tactic(auto, using(std::proofs::lemmas::Fmt::decimal_digit), unfolding(crate::specs::Text::dec_text))]
pub fn push_dec(out: &mut Vec<u8>, n: u64) -> Result<(), OutOfMemory>
    ensures ok { OnOk result (out.new.items ≡ out.old.items ++ dec_text n) }
    ensures err { OnErr result (out.new.items ≡ out.old.items) }
{
    if n < 10 {
        out.push(b'0' + n as u8)?;
        return Ok(());
    }
    let mut buffer = Buffer::new();
    out.extend_from_slice(buffer.format(n).as_bytes())?;
    Ok(())
}

/// Appends this many low hexadecimal digits of a number, in lower case and with leading zeros. The crate `hex`
/// writes whole bytes, and a virtual page number has five digits.
#[tactic(auto, using(crate::proofs::HexLemmas::hex_step))]
pub fn push_hex(out: &mut Vec<u8>, n: u32, digits: u8) -> Result<(), OutOfMemory>
    requires { (1 ≤ digits) × (digits ≤ 8) }
    ensures ok { OnOk result (out.new.items ≡ out.old.items ++ hex_text digits n) }
    ensures err { OnErr result (out.new.items ≡ out.old.items) }
{
    let mut text = [0; WORD_DIGITS];
    let mut rest = n;
    let mut place = WORD_DIGITS;
    for _ in 0..digits {
        place -= 1;
        text[place] = hex_glyph(rest % 16);
        rest /= 16;
    }
    out.extend_from_slice(&text[place..])?;
    Ok(())
}

/// Appends bytes as they stand between quotation marks: from the space to `~` as they are, but `\"` and
/// `\\`; a line feed as `\n`; and each other byte as `\x` and two digits.
pub fn push_quoted(out: &mut Vec<u8>, bytes: &[u8]) -> Result<(), OutOfMemory>
    ensures ok { OnOk result (out.new.items ≡ out.old.items ++ quoted_text bytes.now) }
    ensures err { OnErr result (out.new.items ≡ out.old.items) }
{
    let before = out.len();
    let pushed = push_each_quoted(out, bytes);
    if pushed.is_err() {
        out.truncate(before);
    }
    pushed
}

/// The glyph of a hexadecimal digit.
fn hex_glyph(digit: u32) -> u8
    requires { digit < 16 }
    ensures { result ≡ digit_char digit }
{
    if digit < 10 {
        b'0' + digit as u8
    } else {
        b'a' + (digit as u8 - 10)
    }
}

/// Appends bytes as they stand between quotation marks, as far as memory reaches.
#[tactic(auto, using(std::proofs::lemmas::List::flat_map_more), unfolding(crate::specs::Text::quoted_text))]
fn push_each_quoted(out: &mut Vec<u8>, bytes: &[u8]) -> Result<(), OutOfMemory>
    ensures ok { OnOk result (out.new.items ≡ out.old.items ++ quoted_text bytes.now) }
    ensures err { OnErr result (take (length out.old.items) out.new.items ≡ out.old.items) }
{
    for byte in bytes {
        let (glyphs, count) = quoted_glyphs(*byte);
        out.extend_from_slice(&glyphs[..count])?;
    }
    Ok(())
}

/// The glyphs of a byte as it stands between quotation marks, and how many of them it takes.
#[tactic(auto, unfolding(crate::specs::Text::hex_text))]
fn quoted_glyphs(byte: u8) -> ([u8; QUOTED_GLYPHS], usize)
    ensures text { take result.1 result.0 ≡ quoted_byte byte }
    ensures most { result.1 ≤ QUOTED_GLYPHS }
{
    match byte {
        b'"' | b'\\' => ([b'\\', byte, 0, 0], 2),
        b'\n' => ([b'\\', b'n', 0, 0], 2),
        b' '..=b'~' => ([byte, 0, 0, 0], 1),
        _ => {
            let high = hex_glyph(u32::from(byte / 16));
            let low = hex_glyph(u32::from(byte % 16));
            ([b'\\', b'x', high, low], 4)
        }
    }
}
