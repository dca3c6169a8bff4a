//! The fields that values give.
ghost use Rattle.std.specs.Prelude.{◌≡◌, ◌<◌, ◌^◌, ◌+◌, IfOk};
ghost use Rattle.asm_parse.specs.Seen.{expression_seen};
ghost use Rattle.mips_asm.specs.Field.{bits_of, distance, field_bits_in, lies, ranged};

use asm_layout::{Names, defined};
use asm_parse::{AsmWhy, Expression};
use mips_codec::CODE_LIMIT;
use mips_text::Field;

/// Whether a value is equal to a number from `-low` to `high`, modulo 2^32.
pub(crate) fn lies(low: u32, high: u32, value: u32) -> bool
    ensures { result ≡ lies low high value }
{
    value <= high || u64::from(value) + u64::from(low) >= 1 << 32
}

/// The bits that the field of an expression fills, in an instruction at a place. The fault is Undefined,
/// Unaligned or OutOfRange.
pub(crate) fn field_bits(
    names: &Names,
    field: Field,
    place: u32,
    expression: Expression<'_>,
) -> Result<u32, AsmWhy>
    requires { place + 4 < 2 ^ 32 }
    ensures value { result ≡ field_bits_in names.now field place (expression_seen expression.entry) }
    ensures within { IfOk result (λ bits. bits < 2 ^ 26) }
{
    value_bits(field, place, defined(names, expression)?)
}

/// How far a branch reaches back, in bytes.
const BRANCH_BACK: u32 = 1 << 17;

/// How far a branch reaches on, in bytes.
const BRANCH_ON: u32 = BRANCH_BACK - 4;

/// How many bytes a jump may reach.
const JUMP_REGION: u32 = 1 << 28;

/// The bits that the field of a value fills, in an instruction at a place. The fault is Unaligned or
/// OutOfRange.
fn value_bits(field: Field, place: u32, value: u32) -> Result<u32, AsmWhy>
    requires { place + 4 < 2 ^ 32 }
    ensures value { result ≡ bits_of field place value }
    ensures within { IfOk result (λ bits. bits < 2 ^ 26) }
{
    match field {
        Field::Branch | Field::Jump if value % 4 != 0 => Err(AsmWhy::Unaligned),
        Field::Amount => ranged(lies(0, 31, value), value << 6),
        Field::Signed => ranged(lies(32768, 32767, value), value & 0xffff),
        Field::Unsigned => ranged(lies(0, 65535, value), value),
        Field::Code => ranged(lies(0, CODE_LIMIT - 1, value), value << 6),
        Field::Branch => {
            // How many words it goes on from the word after it, modulo 2^16.
            let distance = distance(place, value);
            ranged(
                lies(BRANCH_BACK, BRANCH_ON, distance),
                distance / 4 % (1 << 16),
            )
        }
        Field::Jump => {
            let near = value / JUMP_REGION == (place + 4) / JUMP_REGION;
            ranged(near, value % JUMP_REGION / 4)
        }
    }
}

/// A number, where a value passes a test.
fn ranged(fits: bool, number: u32) -> Result<u32, AsmWhy>
    ensures { result ≡ ranged fits number }
{
    fits.then_some(number).ok_or(AsmWhy::OutOfRange)
}

/// How far an address lies behind the word after a place, modulo 2^32.
fn distance(place: u32, address: u32) -> u32
    requires { place + 4 < 2 ^ 32 }
    ensures { result ≡ distance place address }
{
    address.wrapping_sub(place + 4)
}
