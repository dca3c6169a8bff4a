//! Hexadecimal digits as bytes, by a table of their values: a long schedule is digits for the most part, and the crate
//! `hex` compares each of them with three ranges.
ghost use Rattle.std.specs.Prelude.{◌≡◌, ◌*◌, ◌≤◌, IfSome, Ok, OnSome, length};
ghost use Rattle.std.specs.Option.{unwrap_or};
ghost use Rattle.std.specs.Result.{result_ok};
ghost use Rattle.hex.specs.Hex.{decode_of, hex_digit_value, pair_value};

use std::alloc::Global;

/// What the table has for a byte that is no digit: more than two digits make.
const NO_DIGIT: u16 = 256;

/// The value of each digit, of either case, and `NO_DIGIT` for each other byte.
static VALUES: [u16; 256] = [
    256, 256, 256, 256, 256, 256, 256, 256, 256, 256, 256, 256, 256, 256, 256, 256, 256, 256, 256,
    256, 256, 256, 256, 256, 256, 256, 256, 256, 256, 256, 256, 256, 256, 256, 256, 256, 256, 256,
    256, 256, 256, 256, 256, 256, 256, 256, 256, 256, 0, 1, 2, 3, 4, 5, 6, 7, 8, 9, 256, 256, 256,
    256, 256, 256, 256, 10, 11, 12, 13, 14, 15, 256, 256, 256, 256, 256, 256, 256, 256, 256, 256,
    256, 256, 256, 256, 256, 256, 256, 256, 256, 256, 256, 256, 256, 256, 256, 256, 10, 11, 12, 13,
    14, 15, 256, 256, 256, 256, 256, 256, 256, 256, 256, 256, 256, 256, 256, 256, 256, 256, 256,
    256, 256, 256, 256, 256, 256, 256, 256, 256, 256, 256, 256, 256, 256, 256, 256, 256, 256, 256,
    256, 256, 256, 256, 256, 256, 256, 256, 256, 256, 256, 256, 256, 256, 256, 256, 256, 256, 256,
    256, 256, 256, 256, 256, 256, 256, 256, 256, 256, 256, 256, 256, 256, 256, 256, 256, 256, 256,
    256, 256, 256, 256, 256, 256, 256, 256, 256, 256, 256, 256, 256, 256, 256, 256, 256, 256, 256,
    256, 256, 256, 256, 256, 256, 256, 256, 256, 256, 256, 256, 256, 256, 256, 256, 256, 256, 256,
    256, 256, 256, 256, 256, 256, 256, 256, 256, 256, 256, 256, 256, 256, 256, 256, 256, 256, 256,
    256, 256, 256, 256, 256, 256, 256, 256, 256, 256, 256, 256, 256, 256, 256, 256, 256, 256, 256,
    256, 256, 256,
];

/// The bytes of pairs of digits. `None` says that they aren't such pairs, or that memory ran out.
pub(crate) fn decoded(alloc: Global, digits: &[u8]) -> Option<Vec<u8>>
    ensures { IfSome result (λ bytes. decode_of digits.now ≡ Ok bytes.items) }
{
    if digits.len() % 2 != 0 {
        return None;
    }
    let mut bytes = vec![in alloc; 0u8; digits.len() / 2].ok()?;
    decode_into(digits, bytes.as_mut_slice())?;
    Some(bytes)
}

/// Writes the bytes of pairs of digits, if they are such pairs.
fn decode_into(digits: &[u8], bytes: &mut [u8]) -> Option<()>
    requires { length digits.now ≡ 2 * length bytes.old }
    ensures { OnSome result (decode_of digits.now ≡ Ok bytes.new) }
{
    'pairs: for i in 0..bytes.len() {
        bytes[i] = byte_of(digits[2 * i], digits[2 * i + 1])?;
    }
    Some(())
}

/// The byte of two digits.
fn byte_of(high: u8, low: u8) -> Option<u8>
    ensures { result ≡ result_ok (pair_value high low 0) }
{
    let byte = value_of(high) * 16 + value_of(low);
    if byte < NO_DIGIT {
        Some(byte as u8)
    } else {
        None
    }
}

/// The value of a digit, or `NO_DIGIT`.
fn value_of(byte: u8) -> u16
    ensures value { result ≡ unwrap_or (hex_digit_value byte) NO_DIGIT }
    ensures most { result ≤ NO_DIGIT }
{
    VALUES[usize::from(byte)]
}
