//! The bad words of a handler.
ghost use Rattle.std.specs.Prelude.{◌≡◌, ◌<◌, ◌≤◌, length};
ghost use Rattle.handler_rules.specs.Verification.{first_bad_below, follows_branch, insn_at, is_bad_branch, is_bad_word, most_words, target_word};

use crate::instructions::{branch_offset, is_allowed, is_barred_from_slots, is_branch};
use mips_codec::decode;
use mips_isa::Insn;

/// From this offset on a branch goes back.
const FIRST_BACKWARD: u16 = 0x8000;

/// The instruction that a word spells.
fn insn_at(words: &[u32], at: usize) -> Insn
    requires { at < length words.now }
    ensures { result ≡ insn_at words.now at }
{
    decode(words[at])
}

/// Whether the word before this one is a branch.
fn follows_branch(words: &[u32], at: usize) -> bool
    requires { at < length words.now }
    ensures { result ≡ follows_branch words.now at }
{
    0 < at && is_branch(insn_at(words, at - 1))
}

/// The target of a branch, counted in words; 0 where it lies before the first.
fn target(at: usize, offset: u16) -> usize
    requires { at < most_words }
    ensures { result ≡ target_word at offset }
{
    let behind = at + 1;
    if offset < FIRST_BACKWARD {
        behind + usize::from(offset)
    } else {
        behind.saturating_sub(0x1_0000 - usize::from(offset))
    }
}

/// Whether a word is bad as a branch.
fn is_bad_branch(words: &[u32], at: usize, offset: Option<u16>) -> bool
    requires { at < most_words }
    ensures { result ≡ is_bad_branch words.now at offset }
{
    let Some(offset) = offset else {
        return false;
    };
    let target = target(at, offset);
    at + 1 == words.len() || target < at + 2 || words.len() < target
}

/// Whether a word is bad.
#[tactic(auto, unfolding(crate::specs::Verification::is_bad_word))]
fn is_bad_word(words: &[u32], at: usize) -> bool
    requires within { at < length words.now }
    requires few { at < most_words }
    ensures { result ≡ is_bad_word words.now at }
{
    let insn = insn_at(words, at);
    !is_allowed(insn)
        || is_barred_from_slots(insn) && follows_branch(words, at)
        || is_bad_branch(words, at, branch_offset(insn))
}

/// The first bad word of at most 64.
pub(crate) fn first_bad_word(words: &[u32]) -> Option<u32>
    requires { length words.now ≤ most_words }
    ensures { result ≡ first_bad_below words.now (length words.now) }
{
    for at in 0..words.len() {
        if is_bad_word(words, at) {
            return Some(at as u32);
        }
    }
    None
}
