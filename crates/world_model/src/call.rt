//! Kernel calls, their numbers, and what they do where they are granted.
ghost use Rattle.std.specs.Prelude.{◌≡◌};

use bind_book::Binding;
use env_frames::{Context, TransferKind};
use page_book::Capabilities;

/// A kernel call, named by its number in register 2 (`docs/KERNEL.md`).
#[derive(Clone, Copy)]
pub enum Call {
    /// Gives up the rest of the slice, or gives it to another.
    Yield,
    /// Appends bytes to the console.
    Put,
    /// Allocates a page, with its capability words.
    Alloc,
    /// Frees a page of the caller's.
    Free,
    /// Gives a page of the caller's other capability words.
    Recap,
    /// Binds a page to a VPN of the caller's.
    Bind,
    /// Takes the binding of a VPN away.
    Unbind,
    /// Sets the address of a handler.
    Context,
    /// Sets the mask of those whose yields and transfers the caller accepts.
    Accept,
    /// Calls another environment at its entry.
    Transfer,
    /// Takes an empty slot.
    SlotTake,
    /// Drops a slot that the caller holds.
    SlotDrop,
    /// Answers a number of the machine or of the kernel's book.
    Query,
    /// Claims the packets that a filter matches.
    Claim,
    /// Withdraws a claim of the caller's.
    Unclaim,
    /// Downloads a handler for a claim of the caller's, or removes it.
    Handler,
    /// Takes an interrupt line, or drops it.
    Line,
    /// Loads a page as a backup.
    Backup,
    /// Sends a packet.
    Send,
    /// Answers the caller's own number.
    OwnNumber,
    /// Answers the time, in ticks since the boot.
    Clock,
}

/// The number of exit, which ends its caller and isn't answered (`docs/KERNEL.md`).
pub const EXIT: u32 = 2;

impl Call {
    ghost use Rattle.world_model.specs.Call.{call_named};

    /// The call of this number, if there is one.
    pub fn named(number: u32) -> Option<Call>
        ensures { result ≡ call_named number }
    {
        match number {
            0 => Some(Call::Yield),
            1 => Some(Call::Put),
            3 => Some(Call::Alloc),
            4 => Some(Call::Free),
            5 => Some(Call::Recap),
            6 => Some(Call::Bind),
            7 => Some(Call::Unbind),
            8 => Some(Call::Context),
            9 => Some(Call::Accept),
            10 => Some(Call::Transfer),
            11 => Some(Call::SlotTake),
            12 => Some(Call::SlotDrop),
            13 => Some(Call::Query),
            14 => Some(Call::Claim),
            15 => Some(Call::Unclaim),
            16 => Some(Call::Handler),
            17 => Some(Call::Line),
            18 => Some(Call::Backup),
            19 => Some(Call::Send),
            20 => Some(Call::OwnNumber),
            21 => Some(Call::Clock),
            _ => None,
        }
    }
}

/// What a granted call does (`docs/KERNEL.md`), read from the call, its value and its caller's registers.
#[derive(Clone, Copy)]
pub enum Deed {
    /// The call is answered, and that is all.
    Answers,
    /// The caller is stopped, and the rest of its slice is dropped.
    Stops,
    /// The rest of the slice goes to the environment of this number, which is started.
    Gives(u32),
    /// The caller alone is changed, in what is its own.
    Own(OwnDeed),
    /// A page is the caller's, with these words, and holds zeros.
    Allocates {
        page: u32,
        words: Capabilities,
    },
    /// A page of the caller's is nobody's.
    Frees(u32),
    /// A page of the caller's has other words.
    Recaps {
        page: u32,
        words: Capabilities,
    },
    /// A binding of the caller's takes the place of the one in its row.
    Binds {
        binding: Binding,
        /// The capability word that was presented.
        word: u64,
    },
    /// The binding of a VPN of the caller's goes, if there is one.
    Unbinds(u32),
    /// The environment of this number is entered, with the rest of the slice, and for a synchronous transfer the slot.
    Transfers {
        target: u32,
        kind: TransferKind,
    },
    /// An empty slot is the caller's own.
    TakesSlot(u32),
    /// A slot that the caller holds is its owner's again, or empty where that is the caller.
    DropsSlot(u32),
    /// An interrupt line is the caller's.
    TakesLine(u32),
    /// An interrupt line of the caller's is nobody's.
    DropsLine(u32),
    /// The packets that a filter matches are the caller's, from now on.
    Claims {
        /// The number of the claim.
        claim: u32,
        /// Where the filter stands in the caller's space.
        address: u32,
        /// How many atoms it has.
        atoms: u32,
        /// The page into which its packets go.
        page: u32,
    },
    /// A claim of the caller's, of this number, is withdrawn.
    Unclaims(u32),
    /// A claim of the caller's has a handler, in place of the one that it has, or none.
    Downloads {
        /// The number of the claim.
        claim: u32,
        /// Where the words of the handler stand in the caller's space.
        address: u32,
        /// How many they are; 0 is no handler.
        words: u32,
    },
    /// A page of the caller's is the last of its backups.
    Loads(u32),
}

/// What a granted call does to its caller alone: to its console, its sent packets, its handlers and its mask (`docs/KERNEL.md`).
#[derive(Clone, Copy)]
pub enum OwnDeed {
    /// Bytes go to the console.
    Puts {
        /// Where they stand in the caller's space.
        address: u32,
        /// How many they are.
        size: u32,
    },
    /// Bytes are a packet that is sent.
    Sends {
        /// Where they stand in the caller's space.
        address: u32,
        /// How many they are, 14 to 1,514.
        size: u32,
    },
    /// The handler of a context stands at an address; 0 is none.
    Handles {
        context: Context,
        address: u32,
    },
    /// The caller accepts those of a mask, and no others.
    Accepts(u32),
}
