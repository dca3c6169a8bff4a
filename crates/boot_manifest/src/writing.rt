//! The image of a manifest and its bodies, written in one pass into a list of its length.
ghost use Rattle.std.specs.Prelude.{◌≡◌, length, IfOk};
ghost use Rattle.std.specs.List.{AllByRecursion};
ghost use Rattle.boot_image.specs.Spelling.{image_text};
ghost use Rattle.boot_manifest.specs.ManifestValue.{plan_in};
ghost use Rattle.boot_manifest.specs.Layout.{bodies_seen, HasWordLength};

use crate::manifest::Manifest;
use aegis_limits::OutOfMemory;
use boot_image::{HEADER_SIZE, Header, PROGRAM_HEADER_SIZE, push_header, push_program, push_slot};
use std::alloc::Global;

/// The image of a manifest and of a body for each of its entries, as `docs/FORMATS.md`, "Image", lays it out. The
/// error is that memory ran out.
#[tactic(auto, using(std::proofs::lemmas::Grind::common_steps, std::proofs::lemmas::List::map_more, crate::proofs::Bodies::programs_left, crate::proofs::Bodies::short_at))]
pub fn write_image(
    alloc: Global,
    manifest: &Manifest,
    bodies: &[Vec<u8>],
) -> Result<Vec<u8>, OutOfMemory>
    requires count { length bodies.now ≡ length manifest.now.entries }
    requires short { AllByRecursion HasWordLength (bodies_seen bodies.now) }
    ensures { IfOk result (λ file. file.items ≡ image_text (plan_in manifest.now) (bodies_seen bodies.now)) }
{
    let length = image_length(manifest, bodies) as usize;
    let mut file = Vec::with_capacity(alloc, length)?;
    let header = Header {
        version: manifest.version,
        pages: manifest.pages,
        quantum: manifest.quantum,
        environments: manifest.entries.len() as u16,
        slots: manifest.slots.len() as u16,
    };
    push_header(&mut file, &header)?;
    for slot in &manifest.slots {
        push_slot(&mut file, *slot)?;
    }
    for (i, entry) in manifest.entries.iter().enumerate() {
        push_program(&mut file, &entry.entry, &bodies[i])?;
    }
    Ok(file)
}

/// How many bytes the image of a manifest and of a body for each of its entries has.
#[tactic(auto, using(std::proofs::lemmas::Grind::common_steps, std::proofs::lemmas::List::map_more, crate::proofs::Bodies::short_at, crate::proofs::Sizes::image_is))]
pub fn image_length(manifest: &Manifest, bodies: &[Vec<u8>]) -> u64
    requires count { length bodies.now ≡ length manifest.now.entries }
    requires short { AllByRecursion HasWordLength (bodies_seen bodies.now) }
    ensures { result ≡ length (image_text (plan_in manifest.now) (bodies_seen bodies.now)) }
{
    let mut length = HEADER_SIZE as u64 + manifest.slots.len() as u64;
    for body in bodies {
        length += PROGRAM_HEADER_SIZE as u64 + body.len() as u64;
    }
    length
}
