//! The command `image MANIFEST`.
ghost use Rattle.std.specs.Prelude.{◌≡◌, ◌<◌, ◌^◌, IfOk, length, map, string_bytes};
ghost use Rattle.std.specs.List.{AllByRecursion};
ghost use Rattle.boot_manifest.specs.Layout.{HasWordLength, bodies_seen};
ghost use Rattle.boot_manifest.specs.ManifestValue.{ManifestEntryValue, plan_in};
ghost use Rattle.boot_manifest.specs.Reading.{manifest_fault};
ghost use Rattle.boot_image.specs.Spelling.{image_text};
ghost use Rattle.commands.specs.MakeImage.{image_due, make_image, files_named, sized_due};
ghost use Rattle.commands.specs.Work.{Settles};

use crate::contents::{behind_first, content};
use crate::performing::Command;
use crate::status::Status;
use crate::work::Answer;
use aegis_limits::OutOfMemory;
use boot_image::{ImageWhy, PAGES_AT, read_image};
use boot_manifest::{Manifest, ManifestEntry, image_length, read_manifest, write_image};
use line_text::Failure;
use std::alloc::Global;

/// A made image has fewer bytes than this.
const IMAGE_LIMIT: u64 = 1 << 27;

/// `image MANIFEST`: the image of a manifest and the files that it names.
#[derive(Clone, Copy)]
pub struct MakeImage<'a> {
    /// The name of the manifest.
    pub manifest: &'a str,
}

/// What is due for a made image: its first fault, or the image.
fn due_made(alloc: Global, name: &str, image: Vec<u8>) -> Result<Answer, OutOfMemory>
    requires { length image.items < 2 ^ 27 }
    ensures { IfOk result (Settles (sized_due name.now image.items)) }
{
    match read_image(alloc, &image) {
        Ok(_) => {}
        Err(Failure::Fault(fault)) => {
            return Answer::refusal(alloc, name, fault.why.name(), fault.place);
        }
        Err(Failure::OutOfMemory) => return Err(OutOfMemory),
    }
    Ok(Answer {
        text: image,
        status: Status::Done,
    })
}

/// What is due for a manifest and its bodies: the image, unless it has a fault.
fn due_image(
    alloc: Global,
    name: &str,
    manifest: &Manifest,
    bodies: &[Vec<u8>],
) -> Result<Answer, OutOfMemory>
    requires count { length bodies.now ≡ length manifest.now.entries }
    requires short { AllByRecursion HasWordLength (bodies_seen bodies.now) }
    ensures { IfOk result (Settles (sized_due name.now (image_text (plan_in manifest.now) (bodies_seen bodies.now)))) }
{
    if image_length(manifest, bodies) >= IMAGE_LIMIT {
        return Answer::refusal(alloc, name, ImageWhy::TooBig.name(), PAGES_AT as u32);
    }
    let image = write_image(alloc, manifest, bodies)?;
    due_made(alloc, name, image)
}

/// The names of the files of entries, in order.
fn entry_files(alloc: Global, entries: &[ManifestEntry]) -> Result<Vec<String>, OutOfMemory>
    ensures { IfOk result (λ names. map string_bytes names.items ≡ map (λ (e : ManifestEntryValue). e.file) entries.now) }
{
    let mut names = Vec::new(alloc);
    for entry in entries {
        names.push(String::from_str(alloc, entry.file.as_str())?)?;
    }
    Ok(names)
}

/// The names of the files that a manifest names, if it has no fault.
fn files_named(alloc: Global, text: &[u8]) -> Result<Vec<String>, OutOfMemory>
    requires { length text.now < 2 ^ 27 }
    ensures { IfOk result (λ names. map string_bytes names.items ≡ files_named text.now (manifest_fault text.now)) }
{
    match read_manifest(alloc, text) {
        Ok(manifest) => entry_files(alloc, &manifest.entries),
        Err(Failure::Fault(_)) => Ok(Vec::new(alloc)),
        Err(Failure::OutOfMemory) => Err(OutOfMemory),
    }
}

/// What is due for a manifest and the files that it names.
fn due(alloc: Global, name: &str, text: &[u8], bodies: &[Vec<u8>]) -> Result<Answer, OutOfMemory>
    requires text { length text.now < 2 ^ 27 }
    requires count { length bodies.now ≡ length (files_named text.now (manifest_fault text.now)) }
    requires short { AllByRecursion HasWordLength (bodies_seen bodies.now) }
    ensures { IfOk result (Settles (image_due name.now text.now (bodies_seen bodies.now) (manifest_fault text.now))) }
{
    match read_manifest(alloc, text) {
        Ok(manifest) => due_image(alloc, name, &manifest, bodies),
        Err(Failure::Fault(fault)) => Answer::refusal(alloc, name, fault.why.name(), fault.line),
        Err(Failure::OutOfMemory) => Err(OutOfMemory),
    }
}

impl Command for MakeImage<'_> {
    ghost value = { λ command. make_image command.manifest.now };

    fn names(&self, alloc: Global) -> Result<Vec<String>, OutOfMemory> {
        Ok(vec![in alloc; String::from_str(alloc, self.manifest)?]?)
    }

    fn further(&self, alloc: Global, contents: &[Vec<u8>]) -> Result<Vec<String>, OutOfMemory> {
        files_named(alloc, content(contents, 0))
    }

    fn answer(&self, alloc: Global, contents: &[Vec<u8>]) -> Result<Answer, OutOfMemory> {
        due(
            alloc,
            self.manifest,
            content(contents, 0),
            behind_first(contents),
        )
    }
}
