//! What an ELF file holds.
use crate::segment::{LEAST_VADDR, Segment};
use arrayvec::ArrayVec;
use std::marker::Model;

/// A program of an ELF file. `docs/FORMATS.md`, "ELF files that Aegis reads", has its limits, which hold
/// of every value of this type.
#[derive(Drop)]
pub struct Elf<'a> {
    /// The address of the first instruction, a multiple of 4 and the address of a byte of a segment.
    pub entry: u32,
    /// The segments that have bytes in memory, in the order of the file. No two of them meet.
    pub segments: ArrayVec<Segment<'a>, 64>,
}

impl<'a> Model for Elf<'a> {
    ghost use Rattle.elf_static.specs.SegmentSeen.{segments_seen};
    ghost use Rattle.elf_static.specs.ElfValue.{ElfValue};
    ghost use Rattle.elf_static.specs.AcceptedElf.{IsAcceptedElf};

    ghost Value = { ElfValue };

    ghost view = { λ elf. record { entry = elf.entry; segments = segments_seen elf.segments.items } };

    ghost invariant = { λ elf. IsAcceptedElf (record { entry = elf.entry; segments = segments_seen elf.segments.items }) };
}

/// The smallest program: one byte of memory at the first address that a segment may have, of value 0.
impl Default for Elf<'_> {
    ghost use Rattle.std.specs.Prelude.{◌≡◌};
    ghost use Rattle.elf_static.specs.Smallest.{smallest};

    ghost is_default = { λ elf. elf ≡ smallest };

    fn default() -> Self {
        let mut segments = ArrayVec::new();
        segments.push(Segment {
            vaddr: LEAST_VADDR,
            bytes: &[],
            memsz: 1,
            writable: false,
        });
        Elf {
            entry: LEAST_VADDR,
            segments,
        }
    }
}
