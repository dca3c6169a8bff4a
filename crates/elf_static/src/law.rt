//! The laws of the definitions: that a file without a fault is within the limits, and how reading is tied
//! to writing.
ghost use Rattle.std.specs.Prelude.{◌≡◌, ℕ, List, None};
ghost use Rattle.elf_static.specs.ObjectValue.{ObjectValue};
ghost use Rattle.elf_static.specs.Writable.{IsWritable};
ghost use Rattle.elf_static.specs.Layout.{elf_text};
ghost use Rattle.elf_static.specs.ElfValue.{elf_of};
ghost use Rattle.elf_static.specs.ElfFaults.{elf_fault};
ghost use Rattle.elf_static.specs.AcceptedElf.{IsAcceptedElf};
ghost use Rattle.elf_static.specs.Loaded.{loaded};

/// The program of a file that has no fault is within the limits. `docs/FORMATS.md`, "ELF files that Aegis
/// reads", has them.
pub fn law_accepted_elf()
    ensures { (file : List ℕ) → elf_fault file ≡ None → IsAcceptedElf (elf_of file) }
{}

/// The file of a program has no fault, and is read as the program's entry and those of its parts that
/// have bytes.
pub fn law_reads_what_is_written()
    ensures { (object : ObjectValue) → IsWritable object → (elf_fault (elf_text object) ≡ None) × (elf_of (elf_text object) ≡ loaded object) }
{}
