//! Quoted texts.
ghost use Rattle.std.specs.Prelude.{◌≡◌, ◌<◌, [], ◌∷◌, Some, None, if◌then◌else◌, length, codes, IfOk, IfSome, IfNone};
ghost use Rattle.std.specs.Str.{bytes_eq};
ghost use Rattle.std.specs.Option.{option_map};
ghost use Rattle.asm_parse.specs.Words.{escaped, meant, unquoted};

use std::alloc::{AllocError, Global};

/// What a quoted text ends with.
const CLOSING: &[u8] = b"\"";

/// The bytes that a quoted text means, if bytes are one.
pub(crate) fn unquoted(alloc: Global, text: &[u8]) -> Result<Option<Vec<u8>>, AllocError>
    ensures { IfOk result (λ found. option_map (λ v. v.items) found ≡ unquoted text.now) }
{
    match text.split_first() {
        Some((first, rest)) if *first == b'"' => meant(alloc, rest),
        _ => Ok(None),
    }
}

/// The bytes that a quoted text means, behind its opening mark.
fn meant(alloc: Global, quoted: &[u8]) -> Result<Option<Vec<u8>>, AllocError>
    ensures { IfOk result (λ found. option_map (λ v. v.items) found ≡ meant quoted.now) }
{
    let mut text = Vec::new(alloc);
    let mut rest = quoted;
    while let Some((byte, behind)) = first_meant(rest) {
        text.push(byte)?;
        rest = behind;
    }
    Ok((rest == CLOSING).then_some(text))
}

/// The first byte that is meant, where one is, and what stands behind it.
fn first_meant(quoted: &[u8]) -> Option<(u8, &[u8])>
    ensures some { IfSome result (λ first. meant quoted.now ≡ option_map (λ text. first.0 ∷ text) (meant first.1.now)) }
    ensures shorter { IfSome result (λ first. length first.1.now < length quoted.now) }
    ensures none { IfNone result (meant quoted.now ≡ (if bytes_eq quoted.now (codes "\"") then Some [] else None)) }
{
    match quoted {
        [b'\\', byte, behind @ ..] => Some((escaped(*byte)?, behind)),
        [b'"' | b'\\', ..] | [] => None,
        [byte, behind @ ..] => Some((*byte, behind)),
    }
}

/// The byte that an escape stands for, by the byte behind its backslash.
fn escaped(byte: u8) -> Option<u8>
    ensures { result ≡ escaped byte }
{
    match byte {
        b'n' => Some(b'\n'),
        b't' => Some(b'\t'),
        b'0' => Some(0),
        b'\\' | b'"' => Some(byte),
        _ => None,
    }
}
