//! Where the operands of an instruction stand, in its text and in its word.
ghost use Rattle.std.specs.Prelude.{◌≡◌, ◌+◌, ◌-◌, ◌^◌, min};
ghost use Rattle.mips_text.specs.WordRows.{operand_bits};

/// A register's bits of a word.
#[derive(Clone, Copy)]
pub enum Slot {
    /// Bits 25:21.
    Rs,
    /// Bits 20:16.
    Rt,
    /// Bits 15:11.
    Rd,
}

/// What an expression gives to a word.
#[derive(Clone, Copy)]
pub enum Field {
    /// A shift amount.
    Amount,
    /// A half that is extended with its sign.
    Signed,
    /// A half that is extended with zeros.
    Unsigned,
    /// The code of SYSCALL and BREAK.
    Code,
    /// Where a branch goes.
    Branch,
    /// Where a jump goes.
    Jump,
}

/// What an operand of an instruction is, and which bits of the word it fills.
#[derive(Clone, Copy)]
pub enum OperandForm {
    /// A register.
    Register(Slot),
    /// An expression.
    Value(Field),
    /// An expression, or nothing, which is 0.
    Optional(Field),
    /// A signed half, or nothing, and `rs` in brackets.
    Based,
    /// An expression, whose high half LUI loads and whose low half ORI adds.
    Halves,
}

impl Slot {
    ghost use Rattle.std.specs.Prelude.{◌≡◌, ◌<◌, ◌^◌};
    ghost use Rattle.mips_text.specs.Texts.{slot_word};
    ghost use Rattle.mips_text.specs.WordRows.{slot_bits, slot_of};

    /// A register in its bits.
    pub fn put(self, register: u8) -> u32
        requires { register < 32 }
        ensures value { result ≡ slot_word self register }
        ensures within { result < 2 ^ 26 }
    {
        match self {
            Slot::Rs => u32::from(register) << 21,
            Slot::Rt => u32::from(register) << 16,
            Slot::Rd => u32::from(register) << 11,
        }
    }

    /// The register in these bits of a word, below 32.
    pub fn get(self, word: u32) -> u8
        ensures value { result ≡ slot_of self word }
        ensures within { result < 32 }
    {
        match self {
            Slot::Rs => (word >> 21 & 0x1f) as u8,
            Slot::Rt => (word >> 16 & 0x1f) as u8,
            Slot::Rd => (word >> 11 & 0x1f) as u8,
        }
    }

    /// These bits of a word, and all others 0.
    fn bits(self, word: u32) -> u32
        ensures value { result ≡ slot_bits self word }
        ensures within { result < 2 ^ 26 }
    {
        self.put(self.get(word))
    }
}

impl Field {
    ghost use Rattle.std.specs.Prelude.{◌≡◌, ◌<◌, ◌^◌};
    ghost use Rattle.mips_text.specs.WordRows.{field_bits, field_of};

    /// The number in these bits of a word, below 2^26.
    pub fn get(self, word: u32) -> u32
        ensures { result ≡ field_of self word }
    {
        match self {
            Field::Amount => word >> 6 & 0x1f,
            Field::Signed | Field::Unsigned | Field::Branch => word & 0xffff,
            Field::Code => word >> 6 & 0xf_ffff,
            Field::Jump => word & 0x3ff_ffff,
        }
    }

    /// These bits of a word, and all others 0.
    fn bits(self, word: u32) -> u32
        ensures value { result ≡ field_bits self word }
        ensures within { result < 2 ^ 26 }
    {
        match self {
            Field::Amount | Field::Code => self.get(word) << 6,
            Field::Signed | Field::Unsigned | Field::Branch | Field::Jump => self.get(word),
        }
    }
}

impl OperandForm {
    ghost use Rattle.std.specs.Prelude.{◌≡◌, ◌<◌, ◌^◌};
    ghost use Rattle.mips_text.specs.WordRows.{form_bits};

    /// The bits of a word where the operand stands, and all others 0.
    fn bits(self, word: u32) -> u32
        ensures value { result ≡ form_bits self word }
        ensures within { result < 2 ^ 27 }
    {
        match self {
            OperandForm::Register(slot) => slot.bits(word),
            OperandForm::Value(field) | OperandForm::Optional(field) => field.bits(word),
            OperandForm::Based => Slot::Rs.bits(word) + Field::Signed.bits(word),
            OperandForm::Halves => Field::Unsigned.bits(word),
        }
    }
}

/// A word with the bits of another one where operands stand. Bits that two operands name, which no
/// instruction has, are counted twice. A sum beyond 2^64 - 1 is that number.
pub(crate) fn with_bits(base: u32, operands: &[OperandForm], word: u32) -> u64
    ensures { result ≡ min (base + operand_bits operands.now word) (2 ^ 64 - 1) }
{
    let mut sum = u64::from(base);
    for operand in operands {
        sum = sum.saturating_add(u64::from(operand.bits(word)));
    }
    sum
}
