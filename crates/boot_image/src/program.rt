//! The programs of an image.
ghost use Rattle.std.specs.Prelude.{◌≡◌, ◌+◌, ◌<◌, ◌≤◌, ◌^◌, IfOk, IfErr, OnOk, length, sum_by, true};
ghost use Rattle.std.specs.Prelude.{drop, take, ◌==◌, position};
ghost use Rattle.std.specs.List.{list_all};
ghost use Rattle.boot_image.specs.ImageValue.{body_end, body_of, bytes_in, flat_body, base_in, kind_in, headers_from, name_text, guaranteed_mappings};
ghost use Rattle.boot_image.specs.ImageFaults.{is_name, is_name_byte, is_base, is_flat_base, program_fault, program_header_fault, body_fault, first_fault};
ghost use Rattle.boot_image.specs.Parts.{ArePrograms, IsSoundHeader, placed_at};
ghost use Rattle.elf_static.specs.Faulting.{Answers};
ghost use Rattle.line_text.specs.Failing.{IsFound};

use crate::fault::{ImageFailure, ImageFault, ImageWhy};
use crate::image::Program;
use crate::layout::{
    ACCEPT_AT, BASE_AT, ELF, FLAT, KIND_AT, LENGTH_AT, NAME_SIZE, NO_BASE, PROGRAM_HEADER_SIZE,
    STACK_AT,
};
use crate::limits::{BODY_LIMIT, LEAST_BASE};
use aegis_limits::{MOST_STACK_PAGES, PAGE_SIZE};
use arrayvec::ArrayVec;
use byte_numbers::word_at;
use elf_static::{Elf, Segment, read};
use std::alloc::Global;

/// A program, if it needs no more mappings than an environment may have, and where its body ends.
#[derive(Drop)]
struct Placed<'a> {
    program: Option<Program<'a>>,
    end: usize,
}

/// The program whose header stands at `header`.
#[tactic(auto, unfolding(crate::specs::ImageValue::program_at))]
fn read_program(file: &[u8], header: usize) -> Result<Placed<'_>, ImageFault>
    requires small { length file.now < 2 ^ 27 }
    requires start { header ≤ length file.now }
    ensures answer { Answers (λ placed. placed) result (program_fault file.now header) (placed_at file.now header) }
    ensures whole { IfOk result (λ placed. placed.end ≤ length file.now) }
{
    let end = check_program(file, header)?;
    let body = read_body(file, header)?;
    let name = name_at(file, header);
    let stack = word_at(file, header + STACK_AT);
    let accept = word_at(file, header + ACCEPT_AT);
    Ok(Placed {
        program: Program::fitting(name, stack, accept, body),
        end,
    })
}

/// Where the body of the program ends whose header stands at `header`.
#[tactic(auto, unfolding(crate::specs::ImageFaults::program_header_fault))]
fn check_program(file: &[u8], header: usize) -> Result<usize, ImageFault>
    requires small { length file.now < 2 ^ 27 }
    requires start { header ≤ length file.now }
    ensures answer { Answers (λ end. end) result (program_header_fault file.now header) (body_end file.now header) }
    ensures whole { IfOk result (λ end. end ≤ length file.now) }
    ensures sound { OnOk result (IsSoundHeader file.now header) }
{
    let body = header + PROGRAM_HEADER_SIZE;
    if file.len() < body {
        return Err(ImageFault::at(ImageWhy::Short, file.len()));
    }
    if !is_name(&name_at(file, header)) {
        return Err(ImageFault::at(ImageWhy::Name, header));
    }
    let kind = word_at(file, header + KIND_AT);
    if kind > ELF {
        return Err(ImageFault::at(ImageWhy::Kind, header));
    }
    if word_at(file, header + STACK_AT) > MOST_STACK_PAGES {
        return Err(ImageFault::at(ImageWhy::Stack, header));
    }
    let length = word_at(file, header + LENGTH_AT);
    if !is_base(kind, word_at(file, header + BASE_AT), length) {
        return Err(ImageFault::at(ImageWhy::Base, header));
    }
    if kind == FLAT && length == 0 {
        return Err(ImageFault::at(ImageWhy::Empty, header));
    }
    let end = body + length as usize;
    if file.len() < end {
        return Err(ImageFault::at(ImageWhy::Short, file.len()));
    }
    Ok(end)
}

/// Whether a body of this kind and of `length` bytes may have this base.
fn is_base(kind: u32, base: u32, length: u32) -> bool
    ensures { result ≡ is_base kind base length }
{
    if kind == FLAT {
        is_flat_base(base, length)
    } else {
        base == NO_BASE
    }
}

/// Whether a flat body of `length` bytes may stand at `base`.
fn is_flat_base(base: u32, length: u32) -> bool
    ensures { result ≡ is_flat_base base length }
{
    base.is_multiple_of(PAGE_SIZE as u32)
        && base >= LEAST_BASE
        && u64::from(base) + u64::from(length) <= BODY_LIMIT
}

/// The body of the program whose header stands at `header`, and is in order.
fn read_body(file: &[u8], header: usize) -> Result<Elf<'_>, ImageFault>
    requires small { length file.now < 2 ^ 27 }
    requires whole { body_end file.now header ≤ length file.now }
    requires sound { IsSoundHeader file.now header }
    ensures { Answers (λ body. body) result (body_fault file.now header) (body_of (kind_in file.now header) (base_in file.now header) (bytes_in file.now header)) }
{
    let start = header + PROGRAM_HEADER_SIZE;
    let length = word_at(file, header + LENGTH_AT) as usize;
    let bytes = &file[start..start + length];
    if word_at(file, header + KIND_AT) == FLAT {
        return Ok(flat_body(word_at(file, header + BASE_AT), bytes));
    }
    match read(bytes) {
        Ok(elf) => Ok(elf),
        Err(fault) => Err(ImageFault::at(ImageWhy::Elf(fault.why), start + fault.place as usize)),
    }
}

/// A flat body: one segment, which may be stored to and is entered at its first byte.
fn flat_body(base: u32, bytes: &[u8]) -> Elf<'_>
    requires base { is_flat_base base (length bytes.now) ≡ true }
    requires filled { 0 < length bytes.now }
    ensures { result ≡ flat_body base bytes.now }
{
    let mut segments = ArrayVec::new();
    segments.push(Segment {
        vaddr: base,
        bytes,
        memsz: bytes.len() as u32,
        writable: true,
    });
    Elf {
        entry: base,
        segments,
    }
}

/// The eight bytes from `place` on, where a program's name stands.
fn name_at(file: &[u8], place: usize) -> [u8; NAME_SIZE]
    requires { place + 8 ≤ length file.now }
    ensures { result ≡ take 8 (drop place file.now) }
{
    let mut name = [0; NAME_SIZE];
    name.copy_from_slice(&file[place..place + NAME_SIZE]);
    name
}

/// Whether these bytes are the name of a program: one to eight of `a` to `z`, `0` to `9` and `_`, and then zeros.
/// `docs/FORMATS.md`, "Image", has the rule.
#[tactic(auto, unfolding(crate::specs::ImageFaults::is_name))]
pub fn is_name(name: &[u8; NAME_SIZE]) -> bool
    ensures { result ≡ is_name name.now }
{
    let (text, rest) = parted(name);
    !text.is_empty() && is_text(text) && is_zeros(rest)
}

/// A name without the zeros after it.
pub fn name_text(name: &[u8; NAME_SIZE]) -> &[u8]
    ensures { result.now ≡ name_text name.now }
{
    parted(name).0
}

/// A name's text, and what follows it.
fn parted(name: &[u8]) -> (&[u8], &[u8])
    ensures text { result.0.now ≡ name_text name.now }
    ensures rest { result.1.now ≡ drop (length (name_text name.now)) name.now }
{
    name.split_at(first_zero(name).unwrap_or(name.len()))
}

fn first_zero(name: &[u8]) -> Option<usize>
    ensures { result ≡ position (λ byte. byte == 0) name.now }
{
    name.iter().position(|byte| *byte == 0)
}

fn is_text(text: &[u8]) -> bool
    ensures { result ≡ list_all is_name_byte text.now }
{
    text.iter().all(|byte| is_name_byte(*byte))
}

fn is_zeros(bytes: &[u8]) -> bool
    ensures { result ≡ list_all (λ byte. byte == 0) bytes.now }
{
    bytes.iter().all(|byte| *byte == 0)
}

fn is_name_byte(byte: u8) -> bool
    ensures { result ≡ is_name_byte byte }
{
    matches!(byte, b'a'..=b'z' | b'0'..=b'9' | b'_')
}

/// The programs of a file, where the last body ends, and the first fault of a program that needs more mappings
/// than an environment may have. If there is one the list lacks such programs.
#[derive(Drop)]
pub(crate) struct Programs<'a> {
    pub(crate) list: Vec<Program<'a>>,
    pub(crate) end: usize,
    pub(crate) crowded: Option<ImageFault>,
}

/// The `count` programs of the file, of which the first one's header stands at `first`. Their list gets its room at
/// once, so that no program is moved again.
pub(crate) fn read_programs(
    alloc: Global,
    file: &[u8],
    count: u16,
    first: usize,
) -> Result<Programs<'_>, ImageFailure>
    requires small { length file.now < 2 ^ 27 }
    requires start { first ≤ length file.now }
    ensures fault { IfErr result (IsFound (first_fault (program_fault file.now) (headers_from count file.now first))) }
    ensures none { OnOk result (first_fault (program_fault file.now) (headers_from count file.now first) ≡ None) }
    ensures programs { IfOk result (ArePrograms file.now count first) }
    ensures whole { IfOk result (λ programs. programs.end ≤ length file.now) }
    ensures most { IfOk result (λ programs. length programs.list.items ≤ count) }
{
    let mut list = Vec::with_capacity(alloc, count as usize)?;
    let mut end = first;
    let mut crowded = None;
    for _ in 0..count {
        let header = end;
        let placed = read_program(file, header)?;
        end = placed.end;
        match placed.program {
            Some(program) => list.push(program)?,
            None => {
                let fault = ImageFault::at(ImageWhy::TooMany, header);
                crowded = crowded.or(Some(fault));
            }
        }
    }
    Ok(Programs { list, end, crowded })
}

/// How many pages the programs need together.
pub(crate) fn needed_pages(programs: &[Program<'_>]) -> u32
    requires { length programs.now < 2 ^ 16 }
    ensures { result ≡ sum_by guaranteed_mappings programs.now }
{
    let mut needed = 0;
    for program in programs {
        needed += program.mappings();
    }
    needed
}
