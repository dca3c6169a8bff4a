//! What assembled programs boot to.
ghost use Rattle.std.specs.Prelude.{◌≡◌, ℕ, List, None, Ok};
ghost use Rattle.elf_static.specs.ObjectValue.{ObjectValue};
ghost use Rattle.elf_static.specs.Layout.{elf_text};
ghost use Rattle.elf_static.specs.ElfFaults.{elf_fault};
ghost use Rattle.elf_static.specs.ElfValue.{elf_of};
ghost use Rattle.segment_pages.specs.Pages.{has_page, is_writable, page_bytes};
ghost use Rattle.mips_asm.specs.Assembled.{assembled};
ghost use Rattle.assembler_laws.specs.Memory.{has_memory, is_open, memory_page};

/// Law: the file of what a source assembles to has no fault, so it is accepted as the body of a program, which
/// begins where the source does. It has a page exactly where a part of the source has a byte; stores into the page
/// are allowed exactly if one of these parts is writable; and the page's bytes are those of the parts, and zeros.
pub fn law_assembled_programs_boot()
    ensures accepted { (source : List ℕ) (object : ObjectValue) → assembled source ≡ Ok object → elf_fault (elf_text object) ≡ None }
    ensures entry { (source : List ℕ) (object : ObjectValue) → assembled source ≡ Ok object → (elf_of (elf_text object)).entry ≡ object.entry }
    ensures pages { (source : List ℕ) (object : ObjectValue) (vpn : ℕ) → assembled source ≡ Ok object → has_page (elf_of (elf_text object)) vpn ≡ has_memory object.parts vpn }
    ensures stores { (source : List ℕ) (object : ObjectValue) (vpn : ℕ) → assembled source ≡ Ok object → is_writable (elf_of (elf_text object)) vpn ≡ is_open object.parts vpn }
    ensures bytes { (source : List ℕ) (object : ObjectValue) (vpn : ℕ) → assembled source ≡ Ok object → page_bytes (elf_of (elf_text object)) vpn ≡ memory_page object.parts vpn }
{}
