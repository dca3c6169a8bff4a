//! Manifests: a text that says what an image holds, and the image that it makes.
//!
//! A manifest names the pages of a machine, the ticks of a slice, the owner of each slot, and for each
//! environment a program with the file that has its body. A text that breaks a rule is refused with the first
//! rule that it breaks, in the order of `docs/FORMATS.md`, and with its line. Of a manifest that is read and of
//! the bodies of its files the image is written in one pass, into a list of its length.
#![tactic(auto)]

mod fault;
mod manifest;
mod ranges;
mod reading;
mod statement;
mod writing;

pub use fault::ManifestWhy;
pub use manifest::{Manifest, ManifestEntry};
pub use reading::read_manifest;
pub use writing::{image_length, write_image};
