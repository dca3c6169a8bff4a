//! An ELF file, written in one pass into a buffer of its length.
ghost use Rattle.std.specs.Prelude.{◌≡◌, ◌+◌, ◌^◌, ◌<◌, ◌≤◌, ◌++◌, length, vec_len, OnOk, IfOk};
ghost use Rattle.elf_static.specs.Layout.{halves, words, file_header, program_header, program_headers, bodies, bytes_start, file_length, elf_text};
ghost use Rattle.elf_static.specs.Seen.{part_seen, parts_seen, object_seen};
ghost use Rattle.elf_static.specs.Writable.{IsWritable};

use crate::layout::{
    EXECUTABLE, EXECUTE, FILE_HEADER_SIZE, IDENTIFICATION, LOADED, MIPS, PROGRAM_HEADER_SIZE, READ,
    VERSION, WRITE,
};
use crate::object::{Object, Part};
use aegis_limits::OutOfMemory;
use byte_numbers::{push_half, push_word};
use std::alloc::Global;

/// The alignment of a part that may stand anywhere.
const UNALIGNED: u32 = 1;

/// The ELF file of a program of one to 64 parts, as `docs/FORMATS.md`, "ELF files that Aegis writes",
/// lays it out. The error is that memory ran out.
#[tactic(auto, unfolding(crate::specs::Layout::elf_text))]
pub fn write(alloc: Global, object: &Object) -> Result<Vec<u8>, OutOfMemory>
    requires { IsWritable (object_seen object.now) }
    ensures layout { IfOk result (λ file. file.items ≡ elf_text (object_seen object.now)) }
    ensures size { IfOk result (λ file. vec_len file ≡ file_length (parts_seen object.now.parts.items)) }
{
    let mut file = Vec::with_capacity(alloc, file_length(&object.parts))?;
    push_file_header(&mut file, object)?;
    push_program_headers(&mut file, &object.parts)?;
    push_bodies(&mut file, &object.parts)?;
    Ok(file)
}

/// How many bytes the file of these parts has.
fn file_length(parts: &[Part]) -> usize
    requires count { length parts.now ≤ 64 }
    requires room { file_length (parts_seen parts.now) < 2 ^ 27 }
    ensures { result ≡ file_length (parts_seen parts.now) }
{
    let mut length = bytes_start(parts) as usize;
    for part in parts {
        length += part.bytes.len();
    }
    length
}

/// Where the parts' bytes begin.
fn bytes_start(parts: &[Part]) -> u32
    requires { length parts.now ≤ 64 }
    ensures { result ≡ bytes_start (parts_seen parts.now) }
{
    FILE_HEADER_SIZE as u32 + PROGRAM_HEADER_SIZE as u32 * parts.len() as u32
}

/// The file header.
#[tactic(auto, unfolding(crate::specs::Layout::file_header, crate::specs::Layout::identification))]
fn push_file_header(file: &mut Vec<u8>, object: &Object) -> Result<(), OutOfMemory>
    requires { length object.now.parts.items ≤ 64 }
    ensures { OnOk result (file.new.items ≡ file.old.items ++ file_header (object_seen object.now)) }
{
    let headers_start = FILE_HEADER_SIZE as u32;
    let count = object.parts.len() as u16;
    file.extend_from_slice(&IDENTIFICATION)?;
    push_halves(file, &[EXECUTABLE, MIPS])?;
    push_words(file, &[VERSION, object.entry, headers_start, 0, 0])?;
    push_halves(
        file,
        &[
            FILE_HEADER_SIZE as u16,
            PROGRAM_HEADER_SIZE as u16,
            count,
            0,
            0,
            0,
        ],
    )
}

/// The headers of all parts, whose bytes follow the last of them.
fn push_program_headers(file: &mut Vec<u8>, parts: &[Part]) -> Result<(), OutOfMemory>
    requires count { length parts.now ≤ 64 }
    requires room { file_length (parts_seen parts.now) < 2 ^ 27 }
    ensures { OnOk result (file.new.items ≡ file.old.items ++ program_headers (bytes_start (parts_seen parts.now)) (parts_seen parts.now)) }
{
    let mut offset = bytes_start(parts);
    for part in parts {
        push_program_header(file, offset, part)?;
        offset += part.bytes.len() as u32;
    }
    Ok(())
}

/// The header of a part whose bytes stand at an offset of the file.
#[tactic(auto, unfolding(crate::specs::Layout::program_header, crate::specs::Layout::words))]
fn push_program_header(file: &mut Vec<u8>, offset: u32, part: &Part) -> Result<(), OutOfMemory>
    requires { length part.now.bytes.items < 2 ^ 32 }
    ensures { OnOk result (file.new.items ≡ file.old.items ++ program_header offset (part_seen part.now)) }
{
    let size = part.bytes.len() as u32;
    let flags = if part.writable {
        READ + WRITE
    } else {
        READ + EXECUTE
    };
    push_words(
        file,
        &[
            LOADED, offset, part.vaddr, part.vaddr, size, size, flags, UNALIGNED,
        ],
    )
}

/// The bytes of all parts.
fn push_bodies(file: &mut Vec<u8>, parts: &[Part]) -> Result<(), OutOfMemory>
    ensures { OnOk result (file.new.items ≡ file.old.items ++ bodies (parts_seen parts.now)) }
{
    for part in parts {
        file.extend_from_slice(&part.bytes)?;
    }
    Ok(())
}

/// Appends numbers of two bytes each, the lowest byte first.
#[tactic(auto, unfolding(crate::specs::Layout::halves))]
pub fn push_halves(file: &mut Vec<u8>, numbers: &[u16]) -> Result<(), OutOfMemory>
    ensures { OnOk result (file.new.items ≡ file.old.items ++ halves numbers.now) }
{
    for number in numbers {
        push_half(file, *number)?;
    }
    Ok(())
}

/// Appends numbers of four bytes each, the lowest byte first.
#[tactic(auto, unfolding(crate::specs::Layout::words))]
pub fn push_words(file: &mut Vec<u8>, numbers: &[u32]) -> Result<(), OutOfMemory>
    ensures { OnOk result (file.new.items ≡ file.old.items ++ words numbers.now) }
{
    for number in numbers {
        push_word(file, *number)?;
    }
    Ok(())
}
