//! The layout of ELF files for the machine, by which they are read and written. `docs/FORMATS.md`, "ELF files that Aegis
//! reads", has it.

/// How many bytes the file header has.
pub const FILE_HEADER_SIZE: usize = 52;
/// How many bytes a program header has.
pub const PROGRAM_HEADER_SIZE: usize = 32;

/// `0x7F` and `ELF`; the class, the order of the bytes of a number, the version; and nine zeros.
pub const IDENTIFICATION: [u8; 16] = *b"\x7FELF\x01\x01\x01\0\0\0\0\0\0\0\0\0";
/// How many bytes of the identification every ELF file begins with.
pub(crate) const MAGIC_SIZE: usize = 4;
/// The class of 32 bits.
pub(crate) const BITS_32: u8 = 1;
/// The order in which the lowest byte is first.
pub(crate) const LOWEST_FIRST: u8 = 1;
/// The version of the format.
pub const VERSION: u32 = 1;
/// The type of a file that is executable.
pub(crate) const EXECUTABLE: u16 = 2;
/// The machine MIPS.
pub const MIPS: u16 = 8;

/// The type of a program header whose segment is loaded.
pub const LOADED: u32 = 1;
/// The type of the information for dynamic linking.
pub(crate) const DYNAMIC: u32 = 2;
/// The type of the name of an interpreter.
pub(crate) const INTERPRETER: u32 = 3;

/// The flag of a segment whose instructions may be executed.
pub const EXECUTE: u32 = 1;
/// The flag of a segment that may be written, which is a power of 2.
pub const WRITE: u32 = 2;
/// The flag of a segment that may be read.
pub const READ: u32 = 4;
