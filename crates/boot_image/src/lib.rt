//! The image of a boot, with its programs.
//!
//! An image that breaks a rule is refused with the first rule that it breaks, in the order of
//! `docs/FORMATS.md`, and with the place where it does. Of an accepted image the programs' bytes are
//! lent from the file, and each number is within the limits, which the types keep, so that the layers above
//! test nothing again.
#![tactic(auto)]

mod entry;
mod fault;
mod header;
mod image;
mod law;
mod layout;
mod limits;
mod program;
mod reading;
mod writing;

pub use entry::{Entry, Kind};
pub use fault::{ImageFailure, ImageFault, ImageWhy};
pub use header::Header;
pub use image::{Image, Program};
pub use law::{law_accepted, law_accepted_is_within, law_reads_what_is_spelled, law_spelled};
pub use layout::{HEADER_SIZE, NAME_SIZE, PAGES_AT, PROGRAM_HEADER_SIZE};
pub use program::{is_name, name_text};
pub use reading::read_image;
pub use writing::{push_header, push_program, push_slot};
