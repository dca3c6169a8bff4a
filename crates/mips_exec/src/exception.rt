//! The exceptions.
ghost use Rattle.std.specs.Prelude.{◌≡◌};
ghost use Rattle.mips_exec.specs.Exception.{at_address, cause_word_of, number_of, plain, unusable};

/// Why the processor stops a program, by the numbers that the Cause register shows (0 to 12).
#[derive(Clone, Copy)]
pub enum ExcCode {
    /// An interrupt.
    Int,
    /// A store to a page that may not be written.
    Mod,
    /// A load or fetch where nothing is mapped.
    Tlbl,
    /// A store where nothing is mapped.
    Tlbs,
    /// A load or fetch at a misaligned address, or outside the user's half.
    Adel,
    /// A store at such an address.
    Ades,
    /// A bus error on a fetch.
    Ibe,
    /// A bus error on a load or store.
    Dbe,
    /// SYSCALL.
    Sys,
    /// BREAK.
    Bp,
    /// A word that is no instruction.
    Ri,
    /// An instruction of a coprocessor that may not be used.
    Cpu,
    /// A signed sum or difference that doesn't fit in 32 bits.
    Ov,
}

impl ExcCode {
    /// The number of the code in bits 6:2 of Cause.
    fn number(self) -> u32
        ensures { result ≡ number_of self }
    {
        match self {
            ExcCode::Int => 0,
            ExcCode::Mod => 1,
            ExcCode::Tlbl => 2,
            ExcCode::Tlbs => 3,
            ExcCode::Adel => 4,
            ExcCode::Ades => 5,
            ExcCode::Ibe => 6,
            ExcCode::Dbe => 7,
            ExcCode::Sys => 8,
            ExcCode::Bp => 9,
            ExcCode::Ri => 10,
            ExcCode::Cpu => 11,
            ExcCode::Ov => 12,
        }
    }
}

/// An exception, as a step reports it.
#[derive(Clone, Copy)]
pub struct Exc {
    /// The address that was asked for; 0 where the exception has none.
    pub bad: u32,
    pub code: ExcCode,
    /// The coprocessor that may not be used; 0 for other codes.
    pub unit: u8,
}

impl Exc {
    /// An exception that has no address.
    pub fn plain(code: ExcCode) -> Self
        ensures { result ≡ plain code }
    {
        Exc {
            code,
            bad: 0,
            unit: 0,
        }
    }

    /// A coprocessor that may not be used.
    pub fn unusable(unit: u8) -> Self
        ensures { result ≡ unusable unit }
    {
        Exc {
            code: ExcCode::Cpu,
            bad: 0,
            unit,
        }
    }

    /// The same exception at an address.
    pub fn at(self, address: u32) -> Self
        ensures { result ≡ at_address self address }
    {
        Exc {
            bad: address,
            ..self
        }
    }
}

/// How a step ended.
#[derive(Clone, Copy)]
pub enum Outcome {
    /// The instruction is done.
    Retired,
    /// It is a SYSCALL outside a delay slot; nothing has changed.
    Call,
    /// It can't be done; nothing has changed.
    Trap(Exc),
}

/// The Cause register after an exception: bit 31 where `pc` was a delay slot, the coprocessor in bits
/// 29:28 for `ExcCode::Cpu`, the code in bits 6:2, and 0 elsewhere.
pub fn cause_word(exc: &Exc, slot: bool) -> u32
    ensures { result ≡ cause_word_of exc.now slot }
{
    let delayed = if slot { 0x8000_0000 } else { 0 };
    let unit = match exc.code {
        ExcCode::Cpu => u32::from(exc.unit % 4) << 28,
        _ => 0,
    };
    delayed + unit + (exc.code.number() << 2)
}
