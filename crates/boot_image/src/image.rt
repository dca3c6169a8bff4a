//! What an image holds.
ghost use Rattle.std.specs.Prelude.{◌≡◌, ◌≤◌, IsTrue};
ghost use Rattle.aegis_limits.specs.Limits.{most_mappings, most_stack_pages};
ghost use Rattle.boot_image.specs.ImageValue.{guaranteed_mappings};
ghost use Rattle.boot_image.specs.ImageFaults.{is_name};
ghost use Rattle.boot_image.specs.Parts.{if_fitting};

use crate::layout::NAME_SIZE;
use aegis_limits::{MOST_MAPPINGS, MOST_SLOTS, Version};
use arrayvec::ArrayVec;
use elf_static::Elf;
use segment_pages::{count_pages, law_smallest};
use std::marker::Model;

/// The owner of each slot, where one has an owner.
pub type Owners = ArrayVec<Option<u8>, MOST_SLOTS>;

/// An image of a boot. `docs/FORMATS.md`, "Image", has its limits, which hold of every value of this type.
#[derive(Drop)]
pub struct Image<'a> {
    /// Its version, which limits pages and environments.
    pub version: Version,
    /// How many pages the machine has, from `LEAST_PAGES` to the version's most, and at least as many as its programs need
    /// together.
    pub pages: u32,
    /// How many ticks a slice has, `LEAST_QUANTUM` to `MOST_QUANTUM`.
    pub quantum: u32,
    /// The environment that owns each of the 1 to 64 slots, where one does.
    pub slots: Owners,
    /// One program for each environment, by its number: from one to the version's most.
    pub programs: Vec<Program<'a>>,
}

impl<'a> Model for Image<'a> {
    ghost use Rattle.boot_image.specs.ImageValue.{ImageValue};
    ghost use Rattle.boot_image.specs.Accepted.{IsAccepted};

    ghost Value = { ImageValue };

    ghost view = { λ image. record { version = image.version; pages = image.pages; quantum = image.quantum; slots = image.slots.items; programs = image.programs.items } };

    ghost invariant = { λ image. IsAccepted (record { version = image.version; pages = image.pages; quantum = image.quantum; slots = image.slots.items; programs = image.programs.items }) };
}

/// A program of an image. Its limits hold of every value of this type: among them that it needs at most 256
/// mappings.
#[derive(Drop)]
pub struct Program<'a> {
    /// The text of the name, one to eight of `a` to `z`, `0` to `9` and `_`, and then zeros.
    pub name: [u8; NAME_SIZE],
    /// How many pages of stack it asks for, at most `MOST_STACK_PAGES`.
    pub stack: u32,
    /// The environments from which it accepts yields and transfers, a bit each.
    pub accept: u32,
    /// Where it begins, and its segments, whose bytes are lent from the file. A flat body is one segment, which
    /// may be stored to.
    pub body: Elf<'a>,
}

impl<'a> Model for Program<'a> {
    ghost use Rattle.boot_image.specs.ImageValue.{ProgramValue};
    ghost use Rattle.boot_image.specs.Accepted.{IsFitting};

    ghost Value = { ProgramValue };

    ghost view = { λ program. record { name = program.name; stack = program.stack; accept = program.accept; body = program.body } };

    ghost invariant = { λ program. IsFitting (record { name = program.name; stack = program.stack; accept = program.accept; body = program.body }) };
}

impl<'a> Program<'a> {
    /// The program with these parts, if it needs no more mappings than an environment may have.
    pub(crate) fn fitting(
        name: [u8; NAME_SIZE],
        stack: u32,
        accept: u32,
        body: Elf<'a>,
    ) -> Option<Program<'a>>
        requires name { IsTrue (is_name name) }
        requires stack { stack ≤ most_stack_pages }
        ensures { result ≡ if_fitting (record { name = name; stack = stack; accept = accept; body = body.entry }) }
    {
        let room = MOST_MAPPINGS as u32 - 1 - stack;
        count_pages(&body, room)?;
        Some(Program {
            name,
            stack,
            accept,
            body,
        })
    }

    /// How many pages an environment has from its boot on: the context page, the body's and the stack's. They
    /// are at most 256.
    pub fn mappings(&self) -> u32
        ensures count { result ≡ guaranteed_mappings self.now }
        ensures most { result ≤ most_mappings }
    {
        match count_pages(&self.body, MOST_MAPPINGS as u32) {
            Some(pages) => 1 + pages + self.stack,
            None => MOST_MAPPINGS as u32,
        }
    }
}

/// The smallest program: it has one byte of memory, of value 0, and is named `a`.
impl Default for Program<'_> {
    ghost use Rattle.std.specs.Prelude.{◌∷◌, replicate};
    ghost use Rattle.elf_static.specs.Smallest.{smallest};

    ghost is_default = { λ program. program ≡ record { name = 97 ∷ replicate 7 0; stack = 0; accept = 0; body = smallest } };

    fn default() -> Self {
        law_smallest();
        let body = Elf::default();
        let _ = &body.entry;
        Program {
            name: *b"a\0\0\0\0\0\0\0",
            stack: 0,
            accept: 0,
            body,
        }
    }
}
