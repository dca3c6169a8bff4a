//! Registers.
ghost use Rattle.std.specs.Prelude.{◌≡◌, ◌<◌, IfSome};
ghost use Rattle.asm_parse.specs.Register.{number_of_register};

use line_text::{TableRow, find, numeral, table_rows};

/// The number of registers.
const REGISTER_COUNT: u32 = 32;

/// A register of the machine, or of coprocessor 0.
#[derive(Clone, Copy)]
pub struct Register {
    /// Its number.
    pub number: u8,
    ghost fits: { number < 32 },
}

/// The registers by name.
const NAMES: [TableRow<u8>; 32] = table_rows![
    b"zero" => 0,
    b"at" => 1,
    b"v0" => 2,
    b"v1" => 3,
    b"a0" => 4,
    b"a1" => 5,
    b"a2" => 6,
    b"a3" => 7,
    b"t0" => 8,
    b"t1" => 9,
    b"t2" => 10,
    b"t3" => 11,
    b"t4" => 12,
    b"t5" => 13,
    b"t6" => 14,
    b"t7" => 15,
    b"s0" => 16,
    b"s1" => 17,
    b"s2" => 18,
    b"s3" => 19,
    b"s4" => 20,
    b"s5" => 21,
    b"s6" => 22,
    b"s7" => 23,
    b"t8" => 24,
    b"t9" => 25,
    b"k0" => 26,
    b"k1" => 27,
    b"gp" => 28,
    b"sp" => 29,
    b"fp" => 30,
    b"ra" => 31,
];

impl Register {
    ghost use Rattle.std.specs.Prelude.{◌≡◌};
    ghost use Rattle.std.specs.Option.{option_map};
    ghost use Rattle.asm_parse.specs.Register.{register_of};
    ghost use Rattle.asm_parse.specs.Seen.{number_seen};

    /// The register of a `$` and a number or a name, if there is one.
    #[tactic(auto, unfolding(crate::specs::Register::number_of_register))]
    pub(crate) fn read(bytes: &[u8]) -> Option<Register>
        ensures { option_map number_seen result ≡ register_of bytes.now }
    {
        let [_, name @ ..] = bytes else {
            return None;
        };
        let number = register_number(name)?;
        Some(Register { number })
    }
}

/// The number of a register, by a number or a name.
#[tactic(auto, unfolding(crate::specs::Register::number_of_register))]
fn register_number(name: &[u8]) -> Option<u8>
    ensures value { result ≡ number_of_register name.now }
    ensures within { IfSome result (λ n. n < 32) }
{
    match numeral(name, 10, REGISTER_COUNT - 1) {
        Some(number) => Some(number as u8),
        None => find(&NAMES, name),
    }
}
