//! The reader of images, in the order of the faults.
ghost use Rattle.std.specs.Prelude.{◌≡◌, ◌<◌, ◌^◌, None, IfOk, IfErr, length};
ghost use Rattle.boot_image.specs.ImageValue.{image_of};
ghost use Rattle.boot_image.specs.ImageFaults.{image_fault};
ghost use Rattle.line_text.specs.Failing.{IsFound};

use crate::fault::{ImageFailure, ImageFault, ImageWhy};
use crate::header::{read_header, read_slots};
use crate::image::Image;
use crate::layout::{HEADER_SIZE, PAGES_AT};
use crate::program::{needed_pages, read_programs};
use line_text::Failure;
use std::alloc::Global;

/// Reads an image of any version, or answers its first fault, unless memory runs out. `docs/FORMATS.md`, "Image", has
/// the format and the faults in their order. The programs' segments are lent from the file.
#[tactic(auto, unfolding(crate::specs::ImageFaults::image_fault, crate::specs::ImageFaults::trailing_fault, crate::specs::ImageValue::image_of))]
pub fn read_image(alloc: Global, file: &[u8]) -> Result<Image<'_>, ImageFailure>
    requires { length file.now < 2 ^ 27 }
    ensures ok { IfOk result (λ image. (image_fault file.now ≡ None) × (image ≡ image_of file.now)) }
    ensures err { IfErr result (IsFound (image_fault file.now)) }
{
    let header = read_header(file)?;
    let slots = read_slots(file, &header)?;
    let first = HEADER_SIZE + header.slots as usize;
    let programs = read_programs(alloc, file, header.environments, first)?;
    if programs.end < file.len() {
        let fault = ImageFault::at(ImageWhy::Trailing, programs.end);
        return Err(Failure::Fault(fault));
    }
    if let Some(fault) = programs.crowded {
        return Err(Failure::Fault(fault));
    }
    if needed_pages(&programs.list) > header.pages {
        let fault = ImageFault::at(ImageWhy::TooBig, PAGES_AT);
        return Err(Failure::Fault(fault));
    }
    Ok(Image {
        version: header.version,
        pages: header.pages,
        quantum: header.quantum,
        slots,
        programs: programs.list,
    })
}
