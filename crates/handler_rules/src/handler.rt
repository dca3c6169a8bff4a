//! Handlers, and how their words are read.
ghost use Rattle.std.specs.Prelude.{◌≡◌, ◌≤◌, ◌/◌, length, None};
ghost use Rattle.handler_rules.specs.Verification.{first_bad, most_words, verified, word_size, words_in};

use crate::outcome::HandlerFault;
use crate::verification::first_bad_word;
use arrayvec::ArrayVec;
use byte_numbers::word_at;
use std::marker::Model;

/// The words of the longest handler.
pub const MOST_WORDS: usize = 64;

/// The bytes of a word.
pub const WORD_SIZE: usize = 4;

/// The words of a handler, at most 64, none of which is bad.
#[derive(Drop)]
pub struct Handler {
    words: ArrayVec<u32, MOST_WORDS>,
}

impl Model for Handler {
    ghost use Rattle.std.specs.Prelude.{◌≡◌, ℕ, List, None};
    ghost use Rattle.handler_rules.specs.Verification.{first_bad};

    ghost Value = { List ℕ };

    ghost view = { λ handler. handler.words.items };

    ghost invariant = { λ handler. first_bad handler.words.items ≡ None };
}

/// The first bad word, and 64 of more words than a handler may have.
fn first_bad(words: &[u32]) -> Option<u32>
    ensures { result ≡ first_bad words.now }
{
    if words.len() > MOST_WORDS {
        return Some(MOST_WORDS as u32);
    }
    first_bad_word(words)
}

/// A copy of at most 64 words.
fn copy(words: &[u32]) -> ArrayVec<u32, MOST_WORDS>
    requires { length words.now ≤ most_words }
    ensures { result.items ≡ words.now }
{
    let mut copy = ArrayVec::new();
    copy.try_extend_from_slice(words).unwrap();
    copy
}

/// Reads the words of a handler. An `Err` names the first that is bad. `docs/KERNEL.md`, "Handlers of packets", says which are.
pub fn verify(words: &[u32]) -> Result<Handler, HandlerFault>
    ensures { result ≡ verified words.now }
{
    if let Some(at) = first_bad(words) {
        return Err(HandlerFault { at });
    }
    Ok(Handler { words: copy(words) })
}

/// The words that at most 256 bytes spell, four each, the lowest byte first.
fn words_in(bytes: &[u8]) -> ArrayVec<u32, MOST_WORDS>
    requires { length bytes.now / word_size ≤ most_words }
    ensures { result.items ≡ words_in bytes.now }
{
    let mut words = ArrayVec::new();
    let count = bytes.len() / WORD_SIZE;
    for i in 0..count {
        words.push(word_at(bytes, i * WORD_SIZE));
    }
    words
}

/// Reads a handler as its words stand in memory, four bytes each, the lowest byte first. An `Err` names the first bad
/// word, and 64 of more words than a handler may have.
pub fn read_handler(bytes: &[u8]) -> Result<Handler, HandlerFault>
    ensures { result ≡ verified (words_in bytes.now) }
{
    if bytes.len() / WORD_SIZE > MOST_WORDS {
        return Err(HandlerFault {
            at: MOST_WORDS as u32,
        });
    }
    verify(words_in(bytes).as_slice())
}

impl Handler {
    /// The same handler once more.
    pub fn copy(&self) -> Handler
        ensures { result ≡ self.now }
    {
        Handler {
            words: copy(self.words.as_slice()),
        }
    }

    /// Its words, at most 64, of which none is bad.
    pub fn words(&self) -> &[u32]
        ensures words { result.now ≡ self.now }
        ensures good { first_bad self.now ≡ None }
    {
        self.words.as_slice()
    }
}
