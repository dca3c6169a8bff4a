//! Why an ELF file is refused, and where.
ghost use Rattle.std.specs.Prelude.{◌≡◌, ◌<◌, ◌^◌};
ghost use Rattle.elf_static.specs.ElfNames.{elf_why_text};

/// Which rule of an ELF file is broken. `docs/FORMATS.md`, "ELF files that Aegis reads", has the rules
/// in the order in which they are tested.
#[derive(Clone, Copy)]
pub enum ElfWhy {
    /// The file is shorter than its header.
    Short,
    /// The file doesn't begin with `0x7F` and `ELF`.
    NotElf,
    /// The file isn't of 32 bits.
    WrongClass,
    /// The lowest byte of a number isn't first.
    WrongOrder,
    /// The file isn't executable.
    WrongKind,
    /// The machine isn't MIPS.
    WrongMachine,
    /// The instruction set isn't MIPS I.
    WrongArch,
    /// The program headers aren't of 32 bytes, aren't 1 to 64, or pass the file's end.
    BadHeaders,
    /// A program header asks for dynamic linking or an interpreter.
    Dynamic,
    /// A segment has more bytes in the file than in memory, passes the file's end, or doesn't lie in the
    /// range of programs.
    BadRange,
    /// A segment meets an earlier one.
    Overlap,
    /// The entry isn't a multiple of 4, or lies in no segment.
    BadEntry,
}

/// The first broken rule of an ELF file, and the byte of the file where it is broken.
#[derive(Clone, Copy)]
pub struct ElfFault {
    /// A byte's place in the file, counted from 0.
    pub place: u32,
    /// The rule.
    pub why: ElfWhy,
}

impl ElfFault {
    /// The fault of this rule at this place.
    pub(crate) fn at(why: ElfWhy, place: usize) -> ElfFault
        requires { place < 2 ^ 32 }
        ensures { result ≡ record { place = place; why = why } }
    {
        ElfFault {
            place: place as u32,
            why,
        }
    }
}

impl ElfWhy {
    /// The name that is printed.
    pub fn name(&self) -> &'static str
        ensures { result.now ≡ elf_why_text self.now }
    {
        match self {
            ElfWhy::Short => "Short",
            ElfWhy::NotElf => "NotElf",
            ElfWhy::WrongClass => "WrongClass",
            ElfWhy::WrongOrder => "WrongOrder",
            ElfWhy::WrongKind => "WrongKind",
            ElfWhy::WrongMachine => "WrongMachine",
            ElfWhy::WrongArch => "WrongArch",
            ElfWhy::BadHeaders => "BadHeaders",
            ElfWhy::Dynamic => "Dynamic",
            ElfWhy::BadRange => "BadRange",
            ElfWhy::Overlap => "Overlap",
            ElfWhy::BadEntry => "BadEntry",
        }
    }
}
