//! A program of an image without the bytes of its body.
ghost use Rattle.std.specs.Prelude.{◌≡◌};
ghost use Rattle.boot_image.specs.Spelling.{base_number, kind_number};

use crate::layout::{ELF, FLAT, NAME_SIZE, NO_BASE};

/// How a program's body is spelled.
#[derive(Clone, Copy)]
pub enum Kind {
    /// As the bytes that the program has in memory from its base on.
    Flat {
        /// The address of the first byte.
        base: u32,
    },
    /// As an ELF file.
    Elf,
}

impl Kind {
    /// The number by which an image names it.
    pub(crate) fn number(self) -> u32
        ensures { result ≡ kind_number self }
    {
        match self {
            Kind::Flat { .. } => FLAT,
            Kind::Elf => ELF,
        }
    }

    /// The base that an image has for it.
    pub(crate) fn base(self) -> u32
        ensures { result ≡ base_number self }
    {
        match self {
            Kind::Flat { base } => base,
            Kind::Elf => NO_BASE,
        }
    }
}

/// A program without the bytes of its body.
#[derive(Clone, Copy)]
pub struct Entry {
    /// The text of the name, and then zeros.
    pub name: [u8; NAME_SIZE],
    /// How its body is spelled.
    pub kind: Kind,
    /// How many pages of stack it asks for.
    pub stack: u32,
    /// The environments from which it accepts yields and transfers, a bit each.
    pub accept: u32,
}
