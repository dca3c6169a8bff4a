//! What a command is, what is due for it, and how a call of the program ends; and the work of the commands that make a
//! file of files: `asm`, `list` and `image`.
//!
//! A `Command` says which files it reads, and what is due for what they hold. `perform` reads them and answers that,
//! for every command and every shelf.
#![tactic(auto)]

mod asm;
mod contents;
mod laws;
mod list_elf;
mod make_image;
mod performing;
mod reading;
mod status;
mod work;

pub use asm::Asm;
pub use contents::{behind_first, content};
pub use laws::whole_files_are_due;
pub use list_elf::ListElf;
pub use make_image::MakeImage;
pub use performing::{Command, perform};
pub use status::Status;
pub use work::{Answer, Stop};
