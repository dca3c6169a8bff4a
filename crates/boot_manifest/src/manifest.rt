//! What a manifest says.
use aegis_limits::Version;
use boot_image::Entry;
use std::marker::Model;

/// What a manifest says of an environment's program. `docs/FORMATS.md`, "Manifest", has its limits, which hold
/// of every value of this type.
#[derive(Drop)]
pub struct ManifestEntry {
    /// The program without its body. It asks for at most `MOST_STACK_PAGES` pages of stack.
    pub entry: Entry,
    /// The name of the file that has the body.
    pub file: String,
}

impl Model for ManifestEntry {
    ghost use Rattle.std.specs.Prelude.{string_bytes};
    ghost use Rattle.boot_manifest.specs.ManifestValue.{ManifestEntryValue};
    ghost use Rattle.boot_manifest.specs.Limited.{IsEntry};

    ghost Value = { ManifestEntryValue };

    ghost view = { λ e. record { entry = e.entry; file = string_bytes e.file } };

    ghost invariant = { λ e. IsEntry (record { entry = e.entry; file = string_bytes e.file }) };
}

/// A manifest: an image without the bodies of its programs. `docs/FORMATS.md`, "Manifest", has its limits, which
/// hold of every value of this type. An owner that is no environment is left to the reader of the image.
#[derive(Drop)]
pub struct Manifest {
    /// The version of its image, which limits pages and environments.
    pub version: Version,
    /// How many pages the machine has, from `LEAST_PAGES` to the version's most.
    pub pages: u32,
    /// How many ticks a slice has, `LEAST_QUANTUM` to `MOST_QUANTUM`.
    pub quantum: u32,
    /// The environment that owns each of the slots, 1 to `MOST_SLOTS`, where one does: a number below the version's most
    /// environments.
    pub slots: Vec<Option<u8>>,
    /// An entry for each environment, by its number: from one to the version's most.
    pub entries: Vec<ManifestEntry>,
}

impl Model for Manifest {
    ghost use Rattle.boot_manifest.specs.ManifestValue.{ManifestValue};
    ghost use Rattle.boot_manifest.specs.Limited.{IsLimited};

    ghost Value = { ManifestValue };

    ghost view = { λ m. record { version = m.version; pages = m.pages; quantum = m.quantum; slots = m.slots.items; entries = m.entries.items } };

    ghost invariant = { λ m. IsLimited (record { version = m.version; pages = m.pages; quantum = m.quantum; slots = m.slots.items; entries = m.entries.items }) };
}
