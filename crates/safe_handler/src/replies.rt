//! The replies of a handler.
ghost use Rattle.std.specs.Prelude.{◌≡◌, ◌<◌, ◌≤◌, [], ◌∷◌, ◌++◌, length, true, slice_index_or};
ghost use Rattle.handler_rules.specs.Laws.{is_frame};
ghost use Rattle.handler_rules.specs.Running.{most_replies};

use arrayvec::ArrayVec;
use external_event::SentPacket;
use std::marker::Model;

/// The most replies of a run.
pub const MOST_REPLIES: usize = 4;

/// The replies of a run, at most four, in the order in which they were made. Each is a frame of 14 to 1,514 bytes.
#[derive(Drop)]
pub struct Replies {
    packets: ArrayVec<SentPacket, MOST_REPLIES>,
}

impl Model for Replies {
    ghost use Rattle.std.specs.Prelude.{◌≡◌, ℕ, List, true};
    ghost use Rattle.std.specs.List.{list_all};
    ghost use Rattle.handler_rules.specs.Laws.{is_frame};

    ghost Value = { List (List ℕ) };

    ghost view = { λ replies. replies.packets.items };

    ghost invariant = { λ replies. list_all is_frame replies.packets.items ≡ true };
}

impl Replies {
    /// There is none.
    pub fn new() -> Replies
        ensures { result ≡ [] }
    {
        Replies {
            packets: ArrayVec::new(),
        }
    }

    /// How many there are, at most four.
    pub fn count(&self) -> u32
        ensures count { result ≡ length self.now }
        ensures most { result ≤ most_replies }
    {
        self.packets.len() as u32
    }

    /// The bytes of one of them, by its number from 0: a frame of 14 to 1,514 bytes.
    pub fn reply(&self, n: u32) -> &[u8]
        requires { n < length self.now }
        ensures bytes { result.now ≡ slice_index_or self.now n [] }
        ensures frame { is_frame result.now ≡ true }
    {
        self.packets[n as usize].bytes()
    }

    /// Takes all of them away.
    pub(crate) fn clear(&mut self)
        ensures { self.new ≡ [] }
    {
        self.packets.clear();
    }

    /// One more reply, of these bytes, which are copied.
    pub(crate) fn push(&mut self, bytes: &[u8])
        requires room { length self.old < most_replies }
        requires frame { is_frame bytes.now ≡ true }
        ensures { self.new ≡ self.old ++ bytes.now ∷ [] }
    {
        self.packets.push(SentPacket::new(bytes));
    }
}
