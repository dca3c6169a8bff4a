//! The reader of ELF files, in the order of the faults.
ghost use Rattle.std.specs.Prelude.{◌≡◌, ◌≤◌, ◌<◌, ◌^◌, Some, None, IfOk, IfErr, length};
ghost use Rattle.elf_static.specs.ElfValue.{elf_of};
ghost use Rattle.elf_static.specs.ElfFaults.{elf_fault};
ghost use Rattle.elf_static.specs.AcceptedElf.{IsAcceptedElf};

use crate::elf::Elf;
use crate::fault::{ElfFault, ElfWhy};
use crate::header::{ENTRY_AT, check_kind, read_table};
use crate::segments::{is_entry, read_segments};
use byte_numbers::word_at;

/// Reads an ELF file, or answers its first fault. `docs/FORMATS.md`, "ELF files that Aegis reads", has
/// what is read and the faults in their order. The segments' bytes are lent from the file.
#[tactic(auto, unfolding(crate::specs::ElfFaults::elf_fault, crate::specs::ElfFaults::entry_fault, crate::specs::ElfValue::elf_of))]
pub fn read(file: &[u8]) -> Result<Elf<'_>, ElfFault>
    requires { length file.now < 2 ^ 27 }
    ensures ok { IfOk result (λ elf. (elf_fault file.now ≡ None) × (elf ≡ elf_of file.now)) }
    ensures err { IfErr result (λ fault. elf_fault file.now ≡ Some fault) }
    // A fault stands within the file, or at its end.
    ensures place { IfErr result (λ fault. fault.place ≤ length file.now) }
    ensures accepted { IfOk result (λ elf. IsAcceptedElf elf) }
{
    check_kind(file)?;
    let table = read_table(file)?;
    let segments = read_segments(file, table)?;
    let entry = word_at(file, ENTRY_AT);
    if !is_entry(entry, &segments) {
        return Err(ElfFault::at(ElfWhy::BadEntry, ENTRY_AT));
    }
    Ok(Elf { entry, segments })
}
