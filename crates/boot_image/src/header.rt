//! The header of an image and its slot bytes.
ghost use Rattle.std.specs.Prelude.{◌≡◌, ◌+◌, ◌<◌, ◌≤◌, ◌^◌, IfOk, OnOk, length, map};
ghost use Rattle.aegis_limits.specs.Limits.{most_slots};
ghost use Rattle.boot_image.specs.ImageValue.{environments_in, header_of, header_size, slots_in, owner_of, slot_bytes, magic_version};
ghost use Rattle.boot_image.specs.ImageFaults.{is_within, header_fault, slots_fault, slot_fault, owners_fault};
ghost use Rattle.elf_static.specs.Faulting.{Answers};

use crate::fault::{ImageFault, ImageWhy};
use crate::image::Owners;
use crate::layout::{ENVIRONMENTS_AT, HEADER_SIZE, NOBODY, PAGES_AT, QUANTUM_AT, SLOTS_AT, magic};
use aegis_limits::{LEAST_PAGES, LEAST_QUANTUM, MOST_QUANTUM, MOST_SLOTS, Version};
use arrayvec::ArrayVec;
use byte_numbers::{half_at, word_at};

/// The version and the numbers of an image's header.
#[derive(Clone, Copy)]
pub struct Header {
    /// The version.
    pub version: Version,
    /// How many pages the machine has.
    pub pages: u32,
    /// How many ticks a slice has.
    pub quantum: u32,
    /// How many environments there are.
    pub environments: u16,
    /// How many slots there are.
    pub slots: u16,
}

fn is_within(least: u32, most: u32, number: u32) -> bool
    ensures { result ≡ is_within least most number }
{
    least <= number && number <= most
}

/// The version whose magic the file begins with.
#[tactic(auto, unfolding(crate::specs::ImageValue::magic_version))]
fn magic_version(file: &[u8]) -> Option<Version>
    ensures { result ≡ magic_version file.now }
{
    if file.starts_with(magic(Version::One)) {
        return Some(Version::One);
    }
    if file.starts_with(magic(Version::Two)) {
        return Some(Version::Two);
    }
    None
}

/// The header of the file, whose numbers are within the limits of its version.
#[tactic(auto, unfolding(crate::specs::ImageFaults::header_fault))]
pub(crate) fn read_header(file: &[u8]) -> Result<Header, ImageFault>
    requires { length file.now < 2 ^ 27 }
    ensures answer { Answers (λ header. header) result (header_fault file.now) (header_of file.now) }
    ensures whole { OnOk result (header_size ≤ length file.now) }
    ensures room { IfOk result (λ header. header.slots ≤ most_slots) }
{
    if file.len() < HEADER_SIZE {
        return Err(ImageFault::at(ImageWhy::Short, file.len()));
    }
    let Some(version) = magic_version(file) else {
        return Err(ImageFault::at(ImageWhy::Magic, 0));
    };
    let pages = word_at(file, PAGES_AT);
    if !is_within(LEAST_PAGES, version.most_pages(), pages) {
        return Err(ImageFault::at(ImageWhy::Pages, PAGES_AT));
    }
    let quantum = word_at(file, QUANTUM_AT);
    if !is_within(LEAST_QUANTUM, MOST_QUANTUM, quantum) {
        return Err(ImageFault::at(ImageWhy::Quantum, QUANTUM_AT));
    }
    let environments = half_at(file, ENVIRONMENTS_AT);
    if !is_within(1, version.most_environments() as u32, environments.into()) {
        return Err(ImageFault::at(ImageWhy::Envs, ENVIRONMENTS_AT));
    }
    let slots = half_at(file, SLOTS_AT);
    if !is_within(1, MOST_SLOTS as u32, slots.into()) {
        return Err(ImageFault::at(ImageWhy::Slots, SLOTS_AT));
    }
    Ok(Header {
        version,
        pages,
        quantum,
        environments,
        slots,
    })
}

/// The owner of each slot of a file with this header.
#[tactic(auto, unfolding(crate::specs::ImageFaults::slots_fault))]
pub(crate) fn read_slots(file: &[u8], header: &Header) -> Result<Owners, ImageFault>
    requires small { length file.now < 2 ^ 27 }
    requires long { header_size ≤ length file.now }
    requires environments { header.now.environments ≡ environments_in file.now }
    requires slots { header.now.slots ≡ slots_in file.now }
    requires room { header.now.slots ≤ most_slots }
    ensures answer { Answers (λ slots. slots.items) result (slots_fault file.now) (map owner_of (slot_bytes file.now)) }
    ensures long { IfOk result (λ slots. header_size + slots_in file.now ≤ length file.now) }
{
    let end = HEADER_SIZE + header.slots as usize;
    if file.len() < end {
        return Err(ImageFault::at(ImageWhy::Short, file.len()));
    }
    read_owners(&file[HEADER_SIZE..end], header.environments)
}

/// The owners that these slot bytes name, the first of which stands after the header.
fn read_owners(bytes: &[u8], environments: u16) -> Result<Owners, ImageFault>
    requires { length bytes.now ≤ most_slots }
    ensures { Answers (λ slots. slots.items) result (owners_fault environments header_size bytes.now) (map owner_of bytes.now) }
{
    let mut owners = ArrayVec::new();
    for (i, byte) in bytes.iter().enumerate() {
        owners.push(read_owner(*byte, environments, HEADER_SIZE + i)?);
    }
    Ok(owners)
}

/// The owner that the slot byte at `place` names, if any.
fn read_owner(byte: u8, environments: u16, place: usize) -> Result<Option<u8>, ImageFault>
    requires { place < 2 ^ 32 }
    ensures { Answers (λ owner. owner) result (slot_fault environments place byte) (owner_of byte) }
{
    if byte == NOBODY {
        return Ok(None);
    }
    if u16::from(byte) >= environments {
        return Err(ImageFault::at(ImageWhy::SlotOwner, place));
    }
    Ok(Some(byte))
}
