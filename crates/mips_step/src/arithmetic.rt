//! What instructions compute of words.
ghost use Rattle.std.specs.Prelude.{◌≡◌, ◌+◌, ◌*◌, ◌<◌, ◌+ℤ◌, ◌-ℤ◌, ◌*ℤ◌, ◌||◌, ◌==◌, int_lt};
ghost use Rattle.std.specs.Int.{cast_unsigned, w64};
ghost use Rattle.mips_exec.specs.Word.{flag, is_negative, shifted_with_sign, sign_extended, signed, low_word};
ghost use Rattle.mips_exec.specs.Effect.{divides, divides_signed, puts_fitting, puts_product};

use mips_exec::{Change, Exc, ExcCode};

/// Bit 31 is set.
pub(crate) fn is_negative(word: u32) -> bool
    ensures { result ≡ is_negative word }
{
    word >= 0x8000_0000
}

/// The word with its sign is below 0, or 0.
pub(crate) fn is_at_most_zero(word: u32) -> bool
    ensures { result ≡ (is_negative word || word == 0) }
{
    is_negative(word) || word == 0
}

/// The word shifted to the right, with copies of its sign from the left.
pub(crate) fn signed_shift(word: u32, by: u32) -> u32
    requires { by < 32 }
    ensures { result ≡ shifted_with_sign word by }
{
    if is_negative(word) {
        !(!word >> by)
    } else {
        word >> by
    }
}

/// A byte with copies of its sign up to bit 31.
pub(crate) fn extend_byte(byte: u32) -> u32
    ensures { result ≡ low_word (sign_extended 8 byte) }
{
    if byte < 0x80 {
        byte
    } else {
        byte.wrapping_add(0xffff_ff00)
    }
}

/// A half word with copies of its sign up to bit 31.
pub(crate) fn extend_half(half: u32) -> u32
    ensures { result ≡ low_word (sign_extended 16 half) }
{
    if half < 0x8000 {
        half
    } else {
        half.wrapping_add(0xffff_0000)
    }
}

/// 1 if the first word with its sign is less than the second with its own, else 0.
pub(crate) fn signed_less(a: u32, b: u32) -> u32
    ensures { result ≡ flag (int_lt (signed a) (signed b)) }
{
    u32::from(a.cast_signed() < b.cast_signed())
}

/// The 64 bits of the signed product.
fn signed_product_bits(a: u32, b: u32) -> u64
    ensures { result ≡ cast_unsigned w64 (signed a *ℤ signed b) }
{
    (i64::from(a.cast_signed()) * i64::from(b.cast_signed())).cast_unsigned()
}

/// Register `n` takes the signed sum, if it fits.
pub(crate) fn sum(n: u8, a: u32, b: u32) -> Change
    ensures { result ≡ puts_fitting n (signed a +ℤ signed b) }
{
    match a.cast_signed().checked_add(b.cast_signed()) {
        Some(sum) => Change::Puts(n, sum.cast_unsigned()),
        None => Change::Raises(Exc::plain(ExcCode::Ov)),
    }
}

/// Register `n` takes the signed difference, if it fits.
pub(crate) fn difference(n: u8, a: u32, b: u32) -> Change
    ensures { result ≡ puts_fitting n (signed a -ℤ signed b) }
{
    match a.cast_signed().checked_sub(b.cast_signed()) {
        Some(difference) => Change::Puts(n, difference.cast_unsigned()),
        None => Change::Raises(Exc::plain(ExcCode::Ov)),
    }
}

/// HI and LO take the two words of 64 bits.
fn puts_product(product: u64) -> Change
    ensures { result ≡ puts_product product }
{
    Change::PutsHiLo((product >> 32) as u32, (product & 0xffff_ffff) as u32)
}

/// HI and LO take the signed product.
pub(crate) fn signed_product(a: u32, b: u32) -> Change
    ensures { result ≡ puts_product (cast_unsigned w64 (signed a *ℤ signed b)) }
{
    puts_product(signed_product_bits(a, b))
}

/// HI and LO take the product without sign.
pub(crate) fn product(a: u32, b: u32) -> Change
    ensures { result ≡ puts_product (a * b) }
{
    puts_product(u64::from(a) * u64::from(b))
}

/// LO takes the signed quotient and HI the remainder.
pub(crate) fn signed_quotient(a: u32, b: u32) -> Change
    ensures { result ≡ divides_signed a b }
{
    if b == 0 {
        return Change::PutsHiLo(a, u32::MAX);
    }
    let (dividend, divisor) = (a.cast_signed(), b.cast_signed());
    let remainder = dividend.wrapping_rem(divisor).cast_unsigned();
    let quotient = dividend.wrapping_div(divisor).cast_unsigned();
    Change::PutsHiLo(remainder, quotient)
}

/// LO takes the quotient without sign and HI the remainder.
pub(crate) fn quotient(a: u32, b: u32) -> Change
    ensures { result ≡ divides a b }
{
    if b == 0 {
        Change::PutsHiLo(a, u32::MAX)
    } else {
        Change::PutsHiLo(a % b, a / b)
    }
}
