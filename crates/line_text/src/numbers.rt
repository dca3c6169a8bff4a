//! The numbers that are read in texts.
ghost use Rattle.std.specs.Prelude.{◌≡◌, ◌+◌, ◌*◌, ◌≤◌, IfSome};
ghost use Rattle.line_text.specs.Number.{digits_number, number_of, number_within, numeral_of};

use crate::print::WORD_DIGITS;

/// The number of decimal digits that a number has at most.
const DECIMAL_DIGITS: usize = 10;

/// The number that a word spells, below 2^32: one to ten decimal digits, or `0x` and one to eight
/// hexadecimal digits of either case. None for every other word.
#[tactic(auto, unfolding(crate::specs::Number::number_of))]
pub fn number(word: &[u8]) -> Option<u32>
    ensures { result ≡ number_of word.now }
{
    match word.strip_prefix(b"0x") {
        Some(digits) => short_numeral(digits, 16, WORD_DIGITS),
        None => decimal(word),
    }
}

/// The number that a word spells, from the least to the most.
pub fn number_within(word: &[u8], least: u32, most: u32) -> Option<u32>
    ensures value { result ≡ number_within least most word.now }
    ensures within { IfSome result (λ n. (least ≤ n) × (n ≤ most)) }
{
    let number = number(word)?;
    (least <= number && number <= most).then_some(number)
}

/// The number, below 2^32, that one to ten decimal digits spell. None for every other word.
pub fn decimal(word: &[u8]) -> Option<u32>
    ensures { result ≡ digits_number 10 10 word.now }
{
    short_numeral(word, 10, DECIMAL_DIGITS)
}

/// The number, below 2^32, that so many digits of a base spell at most.
fn short_numeral(digits: &[u8], base: u32, count: usize) -> Option<u32>
    requires { (2 ≤ base) × (base ≤ 16) }
    ensures { result ≡ digits_number base count digits.now }
{
    if digits.len() > count {
        return None;
    }
    numeral(digits, base, u32::MAX)
}

/// The number that one or more digits of a base spell, where it is at most so much. Any number of
/// leading zeros may stand before it.
pub fn numeral(digits: &[u8], base: u32, most: u32) -> Option<u32>
    requires { (2 ≤ base) × (base ≤ 16) }
    ensures value { result ≡ numeral_of base most digits.now }
    ensures within { IfSome result (λ n. n ≤ most) }
{
    if digits.is_empty() {
        return None;
    }
    let mut value: u32 = 0;
    for byte in digits {
        let digit = char::from(*byte).to_digit(base)?;
        let next = with_digit(value, base, digit);
        if next > u64::from(most) {
            return None;
        }
        value = next as u32;
    }
    Some(value)
}

/// A number with one more digit of a base behind it.
#[tactic(auto, using(crate::proofs::NumeralLemmas::product_fits))]
fn with_digit(value: u32, base: u32, digit: u32) -> u64
    requires { base ≤ 16 }
    ensures { result ≡ value * base + digit }
{
    u64::from(value) * u64::from(base) + u64::from(digit)
}
