//! Lines that are written: a name, words, each behind a space, and a line feed. Each push appends its text
//! whole, or answers that memory ran out; what the list had before stays.
ghost use Rattle.std.specs.Prelude.{◌≡◌, ◌++◌, ◌∷◌, [], OnOk};
ghost use Rattle.std.specs.List.{flat_map};
ghost use Rattle.line_text.specs.Growth.{Keeps};
ghost use Rattle.line_text.specs.WrittenLine.{bytes_text, label, line_of, quotation, spaced, text_of};

use crate::print::{WORD_DIGITS, push_dec, push_hex, push_quoted};
use aegis_limits::OutOfMemory;

/// The hexadecimal digits of a virtual page number.
const PAGE_NUMBER_DIGITS: u8 = 5;

/// The hexadecimal digits of a byte.
const BYTE_DIGITS: u8 = 2;

/// A word of a line that is written.
#[derive(Clone, Copy)]
pub enum Word<'a> {
    /// Bytes as they are.
    Text(&'a [u8]),
    /// Bytes, and a colon behind them.
    Label(&'a [u8]),
    /// A number in decimal.
    Number(u64),
    /// A dash, in place of a number that there isn't.
    Dash,
    /// A virtual page number, in five hexadecimal digits.
    PageNumber(u32),
    /// A number, in eight hexadecimal digits.
    Hexadecimal(u32),
    /// 1 or 0.
    Flag(bool),
    /// Bytes between quotation marks.
    Quotation(&'a [u8]),
    /// Bytes, in two hexadecimal digits each.
    Bytes(&'a [u8]),
}

/// Appends bytes as they are.
fn push_text(out: &mut Vec<u8>, text: &[u8]) -> Result<(), OutOfMemory>
    ensures ok { OnOk result (out.new.items ≡ out.old.items ++ text.now) }
    ensures keeps { Keeps out.old.items out.new.items }
{
    out.extend_from_slice(text)?;
    Ok(())
}

/// Appends a byte as it is.
#[inline(always)]
fn push_byte(out: &mut Vec<u8>, byte: u8) -> Result<(), OutOfMemory>
    ensures ok { OnOk result (out.new.items ≡ out.old.items ++ byte ∷ []) }
    ensures keeps { Keeps out.old.items out.new.items }
{
    out.push(byte)?;
    Ok(())
}

/// Appends bytes, and a colon behind them.
fn push_label(out: &mut Vec<u8>, text: &[u8]) -> Result<(), OutOfMemory>
    ensures ok { OnOk result (out.new.items ≡ out.old.items ++ label text.now) }
    ensures keeps { Keeps out.old.items out.new.items }
{
    push_text(out, text)?;
    push_byte(out, b':')
}

/// Appends bytes between quotation marks.
fn push_quotation(out: &mut Vec<u8>, bytes: &[u8]) -> Result<(), OutOfMemory>
    ensures ok { OnOk result (out.new.items ≡ out.old.items ++ quotation bytes.now) }
    ensures keeps { Keeps out.old.items out.new.items }
{
    push_byte(out, b'"')?;
    push_quoted(out, bytes)?;
    push_byte(out, b'"')
}

/// Appends bytes in hexadecimal digits.
fn push_bytes(out: &mut Vec<u8>, bytes: &[u8]) -> Result<(), OutOfMemory>
    ensures ok { OnOk result (out.new.items ≡ out.old.items ++ bytes_text bytes.now) }
    ensures keeps { Keeps out.old.items out.new.items }
{
    for byte in bytes {
        push_hex(out, u32::from(*byte), BYTE_DIGITS)?;
    }
    Ok(())
}

/// Appends a word.
pub fn push_word(out: &mut Vec<u8>, word: Word<'_>) -> Result<(), OutOfMemory>
    ensures ok { OnOk result (out.new.items ≡ out.old.items ++ text_of word.entry) }
    ensures keeps { Keeps out.old.items out.new.items }
{
    match word {
        Word::Text(bytes) => push_text(out, bytes),
        Word::Label(bytes) => push_label(out, bytes),
        Word::Number(n) => push_dec(out, n),
        Word::Dash => push_byte(out, b'-'),
        Word::PageNumber(n) => push_hex(out, n, PAGE_NUMBER_DIGITS),
        Word::Hexadecimal(n) => push_hex(out, n, WORD_DIGITS as u8),
        Word::Flag(flag) => push_byte(out, b'0' + u8::from(flag)),
        Word::Quotation(bytes) => push_quotation(out, bytes),
        Word::Bytes(bytes) => push_bytes(out, bytes),
    }
}

/// Appends a word behind a space.
pub fn push_spaced(out: &mut Vec<u8>, word: Word<'_>) -> Result<(), OutOfMemory>
    ensures ok { OnOk result (out.new.items ≡ out.old.items ++ spaced (text_of word.entry)) }
    ensures keeps { Keeps out.old.items out.new.items }
{
    push_byte(out, b' ')?;
    push_word(out, word)
}

/// Appends words, each behind a space.
fn push_words(out: &mut Vec<u8>, words: &[Word<'_>]) -> Result<(), OutOfMemory>
    ensures ok { OnOk result (out.new.items ≡ out.old.items ++ flat_map (λ w. spaced (text_of w)) words.now) }
    ensures keeps { Keeps out.old.items out.new.items }
{
    for word in words {
        push_spaced(out, *word)?;
    }
    Ok(())
}

/// Ends a line.
pub fn end_line(out: &mut Vec<u8>) -> Result<(), OutOfMemory>
    ensures ok { OnOk result (out.new.items ≡ out.old.items ++ 10 ∷ []) }
    ensures keeps { Keeps out.old.items out.new.items }
{
    push_byte(out, b'\n')
}

/// Appends a line of a name and words.
#[tactic(auto, unfolding(crate::specs::WrittenLine::line_of))]
pub fn push_line(out: &mut Vec<u8>, name: &[u8], words: &[Word<'_>]) -> Result<(), OutOfMemory>
    ensures ok { OnOk result (out.new.items ≡ out.old.items ++ line_of name.now words.now) }
    ensures keeps { Keeps out.old.items out.new.items }
{
    push_text(out, name)?;
    push_words(out, words)?;
    end_line(out)
}
