//! Why a file is refused, and where.
ghost use Rattle.std.specs.Prelude.{◌≡◌, ◌<◌, ◌^◌};
ghost use Rattle.boot_image.specs.Names.{image_why_text};
ghost use Rattle.line_text.specs.declared.failure.Failure.TheVariants.{Fault as IsFault};

use elf_static::ElfWhy;
use line_text::Failure;

/// Which rule of an image is broken. `docs/FORMATS.md`, "Image", has the rules in the order in which
/// they are tested.
#[derive(Clone, Copy)]
pub enum ImageWhy {
    /// The header, the slot bytes, a program's header or its body pass the file's end.
    Short,
    /// The file begins neither with `AEG1` nor with `AEG2`.
    Magic,
    /// The number of pages isn't from `LEAST_PAGES` to the most of the version.
    Pages,
    /// The quantum isn't from `LEAST_QUANTUM` to `MOST_QUANTUM` ticks.
    Quantum,
    /// The number of environments isn't from 1 to the most of the version.
    Envs,
    /// The number of slots isn't from 1 to 64.
    Slots,
    /// A slot byte is neither 255 nor the number of an environment.
    SlotOwner,
    /// A program's name isn't one to eight of `a` to `z`, `0` to `9` and `_`, and then zeros.
    Name,
    /// A program's kind is above 1.
    Kind,
    /// A program asks for more than 16 stack pages.
    Stack,
    /// A flat program's base isn't the address of a page at or above 0x2000, or the body passes
    /// 0x7FF00000; or an ELF program's base isn't 0.
    Base,
    /// A flat program has no byte.
    Empty,
    /// A program's body is an ELF file that breaks this rule of ELF files, at this place of the image.
    Elf(ElfWhy),
    /// Bytes follow the last body.
    Trailing,
    /// An environment needs more than 256 guaranteed mappings.
    TooMany,
    /// The environments together need more pages than there are.
    TooBig,
}

/// The first broken rule of an image, and the byte of the file where it is broken.
#[derive(Clone, Copy)]
pub struct ImageFault {
    /// A byte's place in the file, counted from 0.
    pub place: u32,
    /// The rule.
    pub why: ImageWhy,
}

/// Why there is no image: the file has a fault, or memory ran out.
pub type ImageFailure = Failure<ImageFault>;

impl From<ImageFault> for Failure<ImageFault> {
    ghost from_gives = { λ fault e. e ≡ IsFault fault };

    fn from(fault: ImageFault) -> Failure<ImageFault> {
        Failure::Fault(fault)
    }
}

impl ImageFault {
    /// The fault of this rule at this place.
    pub(crate) fn at(why: ImageWhy, place: usize) -> ImageFault
        requires { place < 2 ^ 32 }
        ensures { result ≡ record { place = place; why = why } }
    {
        ImageFault {
            place: place as u32,
            why,
        }
    }
}

impl ImageWhy {
    /// The name that is printed.
    pub fn name(&self) -> &'static str
        ensures { result.now ≡ image_why_text self.now }
    {
        match self {
            ImageWhy::Short => "Short",
            ImageWhy::Magic => "Magic",
            ImageWhy::Pages => "Pages",
            ImageWhy::Quantum => "Quantum",
            ImageWhy::Envs => "Envs",
            ImageWhy::Slots => "Slots",
            ImageWhy::SlotOwner => "SlotOwner",
            ImageWhy::Name => "Name",
            ImageWhy::Kind => "Kind",
            ImageWhy::Stack => "Stack",
            ImageWhy::Base => "Base",
            ImageWhy::Empty => "Empty",
            ImageWhy::Elf(why) => why.name(),
            ImageWhy::Trailing => "Trailing",
            ImageWhy::TooMany => "TooMany",
            ImageWhy::TooBig => "TooBig",
        }
    }
}
