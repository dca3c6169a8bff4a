//! The limits of the machine and of the kernel (`docs/FORMATS.md`, "Limits"). Each stands once as its number, in
//! `specs/Limits.antt`, by which the contracts speak; the constants here are for code, and `constants_are_the_limits`
//! says that they are those numbers. Some limits depend on an image's `Version`; the constants are then the widest.
//! Beside them stands `OutOfMemory`, by which a call says that the host's memory is
//! at its limit.
#![tactic(auto)]

mod memory;
mod version;

ghost use Rattle.std.specs.Prelude.{◌≡◌};
ghost use Rattle.aegis_limits.specs.Limits.{page_size, vpn_end, stack_end, least_pages, most_pages, least_quantum, most_quantum, most_environments, environment_numbers, excess_limit, most_stripe_rows, most_slots, most_mappings, most_stack_pages, console_size, most_ticks, most_run_ticks};

pub use memory::OutOfMemory;
pub use version::{Version, law_versions_are_within};

/// The bytes of a page.
pub const PAGE_SIZE: usize = 4096;

/// The same as a difference of addresses.
pub const PAGE_BYTES: u32 = PAGE_SIZE as u32;

/// The VPNs of user addresses, which are these addresses over the size of a page, lie below this one.
pub const VPN_END: u32 = 0x80000;

/// The pages of an environment's stack end below this VPN.
pub const STACK_END: u32 = 0x7FFF0;

/// The fewest pages of physical memory that a board has.
pub const LEAST_PAGES: u32 = 16;

/// The most pages of physical memory that a board has, in any version.
pub const MOST_PAGES: u32 = 4096;

/// The shortest quantum, in ticks.
pub const LEAST_QUANTUM: u32 = 16;

/// The longest quantum, in ticks.
pub const MOST_QUANTUM: u32 = 65_536;

/// The most environments on a board, in any version.
pub const MOST_ENVIRONMENTS: usize = 32;

/// The numbers of environments lie below this one, also of one that an event names and that isn't there: a set of
/// environments is a word with a bit for each.
pub const ENVIRONMENT_NUMBERS: usize = 32;

/// The quanta that an environment may owe; one more is its death.
pub const EXCESS_LIMIT: u32 = 8;

/// The most rows of an environment's stripe, in any version: in them stand its bindings.
pub const MOST_STRIPE_ROWS: u32 = 256;

/// The most slots of a vector of slots.
pub const MOST_SLOTS: usize = 64;

/// The most guaranteed mappings of an environment, its context page among them.
pub const MOST_MAPPINGS: usize = 256;

/// The most pages of an environment's stack.
pub const MOST_STACK_PAGES: u32 = 16;

/// The bytes that a console holds at most.
pub const CONSOLE_SIZE: usize = 65_536;

/// The most ticks of a machine: time ends here.
pub const MOST_TICKS: u32 = 268_435_456;

/// The most ticks that `run` makes, and each side of `twin`. No event of a schedule comes later.
pub const MOST_RUN_TICKS: u32 = 4_194_304;

/// Law: the constants are the limits.
pub fn constants_are_the_limits()
    ensures page { PAGE_SIZE ≡ page_size }
    ensures page_bytes { PAGE_BYTES ≡ page_size }
    ensures vpns { VPN_END ≡ vpn_end }
    ensures stack_highest { STACK_END ≡ stack_end }
    ensures pages_least { LEAST_PAGES ≡ least_pages }
    ensures pages_most { MOST_PAGES ≡ most_pages }
    ensures quantum_least { LEAST_QUANTUM ≡ least_quantum }
    ensures quantum_most { MOST_QUANTUM ≡ most_quantum }
    ensures environments { MOST_ENVIRONMENTS ≡ most_environments }
    ensures numbers { ENVIRONMENT_NUMBERS ≡ environment_numbers }
    ensures excess { EXCESS_LIMIT ≡ excess_limit }
    ensures stripe { MOST_STRIPE_ROWS ≡ most_stripe_rows }
    ensures slots { MOST_SLOTS ≡ most_slots }
    ensures mappings { MOST_MAPPINGS ≡ most_mappings }
    ensures stack { MOST_STACK_PAGES ≡ most_stack_pages }
    ensures console { CONSOLE_SIZE ≡ console_size }
    ensures ticks { MOST_TICKS ≡ most_ticks }
    ensures run_ticks { MOST_RUN_TICKS ≡ most_run_ticks }
{}
