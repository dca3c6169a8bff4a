//! The numbers of the registers, and where they have their fields (`docs/MACHINE.md`, "Coprocessor 0"). A field of a word is
//! told by its unit, which is its lowest bit, and by how many values it has.

/// The number of Index, as MFC0 and MTC0 name it.
pub const INDEX: u8 = 0;

/// The number of Random.
pub const RANDOM: u8 = 1;

/// The number of EntryLo.
pub const ENTRY_LO: u8 = 2;

/// The number of Context.
pub const CONTEXT: u8 = 4;

/// The number of BadVAddr.
pub const BAD_VADDR: u8 = 8;

/// The number of EntryHi.
pub const ENTRY_HI: u8 = 10;

/// The number of Status.
pub const STATUS: u8 = 12;

/// The number of Cause.
pub const CAUSE: u8 = 13;

/// The number of EPC.
pub const EPC: u8 = 14;

/// The number of PRId.
pub const PRID: u8 = 15;

/// What PRId reads.
pub const PROCESSOR: u32 = 0x200;

/// The row that Index and Random name, in bits 13:8.
pub const ROW_UNIT: u32 = 1 << 8;

/// How many rows there are.
pub const ROWS: u32 = 64;

/// Bit 31 of Index: a probe found no row.
pub const NO_ROW: u32 = 1 << 31;

/// What EntryLo takes, bits 31:8.
pub const ENTRY_LO_UNIT: u32 = 1 << 8;

/// The process that EntryHi names, in bits 11:6.
pub const PID_UNIT: u32 = 1 << 6;

/// How many processes there are.
pub const PIDS: u32 = 64;

/// The virtual page of an address and of EntryHi, in bits 31:12.
pub const VPN_UNIT: u32 = 1 << 12;

/// What Context takes, bits 31:21.
pub const BASE_UNIT: u32 = 1 << 21;

/// Bits 30:12 of a bad address, in bits 20:2 of Context.
pub const BAD_PAGE_UNIT: u32 = 1 << 2;

/// How many pages these bits tell apart.
pub const BAD_PAGES: u32 = 1 << 19;

/// A pair of modes in Status, of two bits.
pub const MODE_PAIR: u32 = 1 << 2;

/// Two pairs of modes.
pub const TWO_MODE_PAIRS: u32 = 1 << 4;

/// All three pairs of modes.
pub const MODE_PAIRS: u32 = 1 << 6;

/// Bit 1 of Status: user mode.
pub const USER_UNIT: u32 = 1 << 1;

/// The mask of interrupts in Status, bits 15:8.
pub const MASK_UNIT: u32 = 1 << 8;

/// How many masks there are.
pub const MASKS: u32 = 1 << 8;

/// The highest bit of the mask, for the line on which the timer interrupts.
pub const TIMER_UNIT: u32 = 1 << 15;
