//! By what a word enters the kernel.
ghost use Rattle.std.specs.Prelude.{◌≡◌};
ghost use Rattle.r3k_machine.specs.Entry.{entry_by, is_break};

use mips_codec::{SPECIAL, function, opcode};
use mips_step::is_syscall;

/// The function of BREAK.
const BREAK: u8 = 13;

/// By what a word enters the kernel (`docs/MACHINE.md`, "Effect").
#[derive(Clone, Copy)]
pub enum Entry {
    /// A call of the kernel: SYSCALL outside a delay slot.
    Call,
    /// The exception of BREAK, with any code, in a delay slot too.
    Break,
}

/// Whether the word is BREAK, with any code.
#[inline(always)]
fn is_break(word: u32) -> bool
    ensures { result ≡ is_break word }
{
    opcode(word) == SPECIAL && function(word) == BREAK
}

/// By what a word that is fetched enters the kernel, in a delay slot or outside one, if it is a call or a BREAK.
#[inline(always)]
pub(crate) fn entry_by(slot: bool, word: u32) -> Option<Entry>
    ensures { result ≡ entry_by slot word }
{
    if !slot && is_syscall(word) {
        Some(Entry::Call)
    } else if is_break(word) {
        Some(Entry::Break)
    } else {
        None
    }
}
