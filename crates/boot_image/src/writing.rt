//! The parts of an image, written one after another.
ghost use Rattle.std.specs.Prelude.{◌≡◌, ◌<◌, ◌^◌, ◌++◌, ◌∷◌, [], length, take, OnErr, OnOk};
ghost use Rattle.boot_image.specs.Spelling.{header_text, program_text, slot_byte};

use crate::entry::Entry;
use crate::header::Header;
use crate::layout::{NOBODY, magic};
use aegis_limits::OutOfMemory;
use byte_numbers::{push_half, push_word};

/// Appends the header of an image: the magic of its version, pages, quantum, environments and slots.
/// `docs/FORMATS.md`, "Image", has the layout. The error is that memory ran out, and then part of the header may stand
/// behind what the file had.
pub fn push_header(file: &mut Vec<u8>, header: &Header) -> Result<(), OutOfMemory>
    ensures ok { OnOk result (file.new.items ≡ file.old.items ++ header_text header.now) }
    ensures err { OnErr result (take (length file.old.items) file.new.items ≡ file.old.items) }
{
    file.extend_from_slice(magic(header.version))?;
    push_word(file, header.pages)?;
    push_word(file, header.quantum)?;
    push_half(file, header.environments)?;
    push_half(file, header.slots)?;
    Ok(())
}

/// Appends the byte of a slot: its owner's number, or 255 where nobody owns it. The error is that memory ran out, and
/// then the file is as it was.
pub fn push_slot(file: &mut Vec<u8>, owner: Option<u8>) -> Result<(), OutOfMemory>
    ensures ok { OnOk result (file.new.items ≡ file.old.items ++ slot_byte owner ∷ []) }
    ensures err { OnErr result (file.new.items ≡ file.old.items) }
{
    file.push(owner.unwrap_or(NOBODY))?;
    Ok(())
}

/// Appends a program: name, base, stack, accept, kind and length, and the body behind them. `docs/FORMATS.md`, "Image",
/// has the layout. The error is that memory ran out, and then part of the program may stand behind what the file had.
pub fn push_program(file: &mut Vec<u8>, entry: &Entry, body: &[u8]) -> Result<(), OutOfMemory>
    requires { length body.now < 2 ^ 32 }
    ensures ok { OnOk result (file.new.items ≡ file.old.items ++ program_text entry.now body.now) }
    ensures err { OnErr result (take (length file.old.items) file.new.items ≡ file.old.items) }
{
    file.extend_from_slice(&entry.name)?;
    push_word(file, entry.kind.base())?;
    push_word(file, entry.stack)?;
    push_word(file, entry.accept)?;
    push_word(file, entry.kind.number())?;
    push_word(file, body.len() as u32)?;
    file.extend_from_slice(body)?;
    Ok(())
}
