//! The image of the load.
ghost use Rattle.std.specs.Prelude.{◌≡◌, ◌<◌, ◌^◌, ◌++◌, None, length, map, IfOk, OnOk};
ghost use Rattle.std.specs.List.{flat_map};
ghost use Rattle.boot_image.specs.ImageFaults.{image_fault};
ghost use Rattle.boot_image.specs.ImageValue.{image_of};
ghost use Rattle.boot_image.specs.Spelling.{slot_byte};
ghost use Rattle.exos_text.specs.LoadImage.{load_image_text, load_image_value, load_quantum, load_slots, named_text};

use crate::draws::Draws;
use crate::program::load_elf;
use aegis_limits::{OutOfMemory, Version};
use boot_image::{
    Entry, HEADER_SIZE, Header, Kind, NAME_SIZE, PROGRAM_HEADER_SIZE, push_header, push_program,
    push_slot,
};
use std::alloc::Global;

/// How many pages the machine has.
const PAGES: u32 = 256;

/// How many slots there are.
const SLOTS: u16 = 64;

/// How many environments there are, each of which owns every sixteenth slot.
const ENVIRONMENTS: u16 = 16;

/// Their names.
const NAMES: [[u8; NAME_SIZE]; 16] = [
    *b"l0\0\0\0\0\0\0",
    *b"l1\0\0\0\0\0\0",
    *b"l2\0\0\0\0\0\0",
    *b"l3\0\0\0\0\0\0",
    *b"l4\0\0\0\0\0\0",
    *b"l5\0\0\0\0\0\0",
    *b"l6\0\0\0\0\0\0",
    *b"l7\0\0\0\0\0\0",
    *b"l8\0\0\0\0\0\0",
    *b"l9\0\0\0\0\0\0",
    *b"l10\0\0\0\0\0",
    *b"l11\0\0\0\0\0",
    *b"l12\0\0\0\0\0",
    *b"l13\0\0\0\0\0",
    *b"l14\0\0\0\0\0",
    *b"l15\0\0\0\0\0",
];

/// The shortest quantum that is drawn, and how many there are.
const LEAST_QUANTUM: u32 = 64;

const QUANTA: u32 = 64;

/// How many bytes the image has: its header, a byte for each slot, and for each environment a header and a body.
const IMAGE_SIZE: usize = HEADER_SIZE + 64 + 16 * (PROGRAM_HEADER_SIZE + 216);

/// The quantum that a seed gives.
#[tactic(auto, using(crate::proofs::Drawing::drawn_one))]
fn quantum(seed: u32) -> u32
    ensures { result ≡ load_quantum seed }
{
    let mut draws = Draws { number: seed };
    LEAST_QUANTUM + (draws.draw() >> 16) % QUANTA
}

/// The owner of each slot.
#[tactic(auto, using(std::proofs::lemmas::Grind::common_steps, crate::proofs::Programs::made_more))]
fn push_slots(file: &mut Vec<u8>) -> Result<(), OutOfMemory>
    ensures { OnOk result (file.new.items ≡ file.old.items ++ map slot_byte load_slots) }
{
    for slot in 0..SLOTS {
        push_slot(file, Some((slot % ENVIRONMENTS) as u8))?;
    }
    Ok(())
}

/// A program of this name, which has no stack and accepts transfers from nobody.
fn push_named(file: &mut Vec<u8>, name: &[u8; NAME_SIZE]) -> Result<(), OutOfMemory>
    ensures { OnOk result (file.new.items ≡ file.old.items ++ named_text name.now) }
{
    let entry = Entry {
        name: *name,
        kind: Kind::Elf,
        stack: 0,
        accept: 0,
    };
    push_program(file, &entry, load_elf())
}

/// The programs of these names.
fn push_programs(file: &mut Vec<u8>, names: &[[u8; NAME_SIZE]]) -> Result<(), OutOfMemory>
    ensures { OnOk result (file.new.items ≡ file.old.items ++ flat_map named_text names.now) }
{
    for name in names {
        push_named(file, name)?;
    }
    Ok(())
}

/// The image, written in one pass into a list of its length.
fn write_image(alloc: Global, seed: u32) -> Result<Vec<u8>, OutOfMemory>
    ensures { IfOk result (λ file. file.items ≡ load_image_text seed) }
{
    let mut file = Vec::with_capacity(alloc, IMAGE_SIZE)?;
    let header = Header {
        version: Version::One,
        pages: PAGES,
        quantum: quantum(seed),
        environments: ENVIRONMENTS,
        slots: SLOTS,
    };
    push_header(&mut file, &header)?;
    push_slots(&mut file)?;
    push_programs(&mut file, &NAMES)?;
    Ok(file)
}

/// The image of the load that a seed gives: sixteen environments with the program of `LOAD`, which own 64 slots in turn.
/// The image has no fault. The error is that memory ran out.
#[tactic(auto, using(std::proofs::lemmas::Grind::common_steps, crate::proofs::Sound::sound, crate::proofs::Sound::meant, crate::proofs::Sound::text_size))]
pub fn load_image(alloc: Global, seed: u32) -> Result<Vec<u8>, OutOfMemory>
    ensures text { IfOk result (λ file. file.items ≡ load_image_text seed) }
    ensures sound { IfOk result (λ file. image_fault file.items ≡ None) }
    ensures image { IfOk result (λ file. image_of file.items ≡ load_image_value seed) }
    ensures short { IfOk result (λ file. length file.items < 2 ^ 27) }
{
    let file = write_image(alloc, seed)?;
    Ok(file)
}
