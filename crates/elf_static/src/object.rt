//! A program as an ELF file holds it.

/// A program: where it begins, and what its memory holds at first.
#[derive(Drop)]
pub struct Object {
    /// The address of the first instruction.
    pub entry: u32,
    /// The parts of the memory, in the order of the file.
    pub parts: Vec<Part>,
}

/// A part of a program's memory.
#[derive(Drop)]
pub struct Part {
    /// The address of the first byte.
    pub vaddr: u32,
    /// The bytes from there on.
    pub bytes: Vec<u8>,
    /// Whether stores into the part are allowed. Where they aren't, it is executable.
    pub writable: bool,
}
