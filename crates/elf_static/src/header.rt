//! The file header.
ghost use Rattle.std.specs.Prelude.{◌+◌, ◌*◌, ◌<◌, ◌≤◌, ◌^◌, IfOk, IfErr, OnOk, length};
ghost use Rattle.elf_static.specs.ElfFaults.{kind_fault, place_fault};
ghost use Rattle.elf_static.specs.Faulting.{Answers};
ghost use Rattle.elf_static.specs.ElfValue.{table_of};

use crate::fault::{ElfFault, ElfWhy};
use crate::layout::{
    BITS_32, EXECUTABLE, FILE_HEADER_SIZE, IDENTIFICATION, LOWEST_FIRST, MAGIC_SIZE, MIPS,
    PROGRAM_HEADER_SIZE,
};
use byte_numbers::{half_at, word_at};

/// The most program headers.
const MOST_HEADERS: u16 = 64;

/// Where the class stands.
const CLASS_AT: usize = 4;
/// Where the order of the bytes of a number stands.
const ORDER_AT: usize = 5;
/// Where the file's type stands.
const KIND_AT: usize = 16;
/// Where the machine stands.
const MACHINE_AT: usize = 18;
/// Where the entry stands.
pub(crate) const ENTRY_AT: usize = 24;
/// Where the place of the program headers stands.
const FIRST_AT: usize = 28;
/// Where the flags stand.
const FLAGS_AT: usize = 36;
/// The lowest bit of the instruction set in the flags, which goes up to the highest one.
const ARCH_SHIFT: u32 = 28;
/// The instruction set MIPS I.
const MIPS_I: u32 = 0;
/// Where the size of a program header stands.
const SIZE_AT: usize = 42;
/// Where the number of program headers stands.
const COUNT_AT: usize = 44;

/// Where the program headers stand, and how many there are.
#[derive(Clone, Copy)]
pub(crate) struct Table {
    pub(crate) first: u32,
    pub(crate) count: u16,
}

/// Whether the file is an executable one for the machine.
#[tactic(auto, unfolding(crate::specs::ElfFaults::kind_fault))]
pub(crate) fn check_kind(file: &[u8]) -> Result<(), ElfFault>
    requires { length file.now < 2 ^ 27 }
    ensures answer { Answers (λ x. x) result (kind_fault file.now) tt }
    ensures whole { OnOk result (52 ≤ length file.now) }
    ensures place { IfErr result (λ fault. fault.place ≤ length file.now) }
{
    if file.len() < FILE_HEADER_SIZE {
        return Err(ElfFault::at(ElfWhy::Short, file.len()));
    }
    if !file.starts_with(&IDENTIFICATION[..MAGIC_SIZE]) {
        return Err(ElfFault::at(ElfWhy::NotElf, 0));
    }
    if file[CLASS_AT] != BITS_32 {
        return Err(ElfFault::at(ElfWhy::WrongClass, CLASS_AT));
    }
    if file[ORDER_AT] != LOWEST_FIRST {
        return Err(ElfFault::at(ElfWhy::WrongOrder, ORDER_AT));
    }
    if half_at(file, KIND_AT) != EXECUTABLE {
        return Err(ElfFault::at(ElfWhy::WrongKind, KIND_AT));
    }
    if half_at(file, MACHINE_AT) != MIPS {
        return Err(ElfFault::at(ElfWhy::WrongMachine, MACHINE_AT));
    }
    if word_at(file, FLAGS_AT) >> ARCH_SHIFT != MIPS_I {
        return Err(ElfFault::at(ElfWhy::WrongArch, FLAGS_AT));
    }
    Ok(())
}

/// The table of program headers of a file whose file header is whole.
#[tactic(auto, unfolding(crate::specs::ElfFaults::place_fault))]
pub(crate) fn read_table(file: &[u8]) -> Result<Table, ElfFault>
    requires small { length file.now < 2 ^ 27 }
    requires whole { 52 ≤ length file.now }
    ensures answer { Answers (λ table. table) result (place_fault file.now) (table_of file.now) }
    ensures most { IfOk result (λ table. table.count ≤ 64) }
    ensures within { IfOk result (λ table. table.first + 32 * table.count ≤ length file.now) }
    ensures place { IfErr result (λ fault. fault.place ≤ length file.now) }
{
    if usize::from(half_at(file, SIZE_AT)) != PROGRAM_HEADER_SIZE {
        return Err(ElfFault::at(ElfWhy::BadHeaders, SIZE_AT));
    }
    let count = half_at(file, COUNT_AT);
    if count == 0 || count > MOST_HEADERS {
        return Err(ElfFault::at(ElfWhy::BadHeaders, COUNT_AT));
    }
    let first = word_at(file, FIRST_AT);
    if file.len() < first as usize + PROGRAM_HEADER_SIZE * usize::from(count) {
        return Err(ElfFault::at(ElfWhy::BadHeaders, FIRST_AT));
    }
    Ok(Table { first, count })
}
