//! The layout of images, by which they are read and written. `docs/FORMATS.md`, "Image", has it.
ghost use Rattle.std.specs.Prelude.{◌≡◌};
ghost use Rattle.boot_image.specs.ImageValue.{magic_of};

use aegis_limits::Version;

/// What an image of this version begins with.
pub(crate) fn magic(version: Version) -> &'static [u8; 4]
    ensures { result.now ≡ magic_of version }
{
    match version {
        Version::One => b"AEG1",
        Version::Two => b"AEG2",
    }
}

/// How many bytes an image's header has. The slot bytes stand behind it.
pub const HEADER_SIZE: usize = 16;
/// At which byte of an image the number of its pages stands.
pub const PAGES_AT: usize = 4;
/// Where the quantum stands.
pub(crate) const QUANTUM_AT: usize = 8;
/// Where the number of environments stands.
pub(crate) const ENVIRONMENTS_AT: usize = 12;
/// Where the number of slots stands.
pub(crate) const SLOTS_AT: usize = 14;
/// The slot byte of an empty slot, which nobody owns.
pub(crate) const NOBODY: u8 = 255;

/// How many bytes a program's header has. The body stands behind it.
pub const PROGRAM_HEADER_SIZE: usize = 28;
/// How many bytes of it the name has, which stands first.
pub const NAME_SIZE: usize = 8;
/// Where the base stands in it.
pub(crate) const BASE_AT: usize = 8;
/// Where the stack pages stand in it.
pub(crate) const STACK_AT: usize = 12;
/// Where the accept mask stands in it.
pub(crate) const ACCEPT_AT: usize = 16;
/// Where the kind stands in it.
pub(crate) const KIND_AT: usize = 20;
/// Where the body's length stands in it.
pub(crate) const LENGTH_AT: usize = 24;
/// The kind of a flat body.
pub(crate) const FLAT: u32 = 0;
/// The kind of a body that is an ELF file, the last kind.
pub(crate) const ELF: u32 = 1;
/// The base of a body that says itself where it stands.
pub(crate) const NO_BASE: u32 = 0;
