//! A sink in memory.
ghost use Rattle.std.specs.Prelude.{◌≡◌, ◌≤◌, [], IfOk, vec_len, vec_capacity};

use aegis_limits::OutOfMemory;
use edge_io::{Sink, WriteFail};
use std::alloc::Global;

/// A sink that keeps in memory what is written, up to its room. Each write has a number, counted
/// from 0, and fails where its number is in `fails` or no room is left.
#[derive(Drop)]
pub struct MemorySink {
    /// What was written.
    pub bytes: Vec<u8>,
    /// How many bytes there is room for in all.
    pub room: usize,
    /// How many bytes one write takes at most: at least 1.
    pub most: usize,
    /// The numbers of the writes that fail.
    pub fails: Vec<u64>,
    /// How many writes there were, whatever they answered. It stays at `u64::MAX`.
    pub calls: u64,
    /// How many writes failed. It stays at `u64::MAX`.
    pub faults: u64,
    ghost takes_some: { 1 ≤ most },
    ghost within_room: { vec_len bytes ≤ room },
    ghost reserved: { room ≤ vec_capacity bytes },
}

impl MemorySink {
    /// An empty sink, with the memory for all of its room.
    pub fn new(
        alloc: Global,
        room: usize,
        most: usize,
        fails: Vec<u64>,
    ) -> Result<MemorySink, OutOfMemory>
        requires { 1 ≤ most }

        ensures empty { IfOk result (λ sink. sink.bytes.items ≡ []) }
        ensures room { IfOk result (λ sink. sink.room ≡ room) }
        ensures most { IfOk result (λ sink. sink.most ≡ most) }
        ensures fails { IfOk result (λ sink. sink.fails ≡ fails) }
        ensures no_calls { IfOk result (λ sink. sink.calls ≡ 0) }
        ensures no_faults { IfOk result (λ sink. sink.faults ≡ 0) }
    {
        let bytes = Vec::with_capacity(alloc, room)?;
        Ok(MemorySink {
            bytes,
            room,
            most,
            fails,
            calls: 0,
            faults: 0,
        })
    }
}

impl Sink for MemorySink {
    ghost use Rattle.std.specs.Prelude.{◌≡◌, ◌<◌, ◌≤◌, ◌++◌, true, false, Some, IsErr, IfOk, OnOk, OnErr, length, take};
    ghost use Rattle.edge_io.specs.Faults.{one_more};
    ghost use Rattle.memory_runs.specs.Room.{HasRoomFor, is_refused, is_set_to_fail, taken_of};

    ghost written = { λ s. Some s.bytes.items };

    ghost faults = { λ s. s.faults };

    ghost Takes = { HasRoomFor };

    /// Fails exactly where the number of the write is in `fails` or no room is left.
    fn write(&mut self, piece: &[u8]) -> Result<usize, WriteFail>
        requires { 0 < length piece.now }

        ensures takes { IfOk result (λ n. n ≡ taken_of self.old (length piece.now)) }
        ensures written { IfOk result (λ n. self.new.bytes.items ≡ self.old.bytes.items ++ take n piece.now) }
        ensures accepts { OnOk result (is_refused self.old ≡ false) }
        ensures refuses { OnErr result (is_refused self.old ≡ true) }
        ensures set_to_fail { is_set_to_fail self.old ≡ true → IsErr result }

        ensures call_counted { self.new.calls ≡ one_more self.old.calls }
        ensures refusal_counted { OnErr result (self.new.faults ≡ one_more self.old.faults) }
        ensures refused_nothing { OnErr result (self.new.bytes.items ≡ self.old.bytes.items) }
        ensures same_fails { self.new.fails ≡ self.old.fails }
        ensures same_room { self.new.room ≡ self.old.room }
        ensures same_most { self.new.most ≡ self.old.most }

        // What every sink ensures, as far as the clauses above don't say it.
        ensures no_fault { OnOk result (self.new.faults ≡ self.old.faults) }
        ensures never_falls { self.old.faults ≤ self.new.faults }
    {
        let call = self.calls;
        self.calls = call.saturating_add(1);
        let left = self.room - self.bytes.len();
        if self.fails.contains(&call) || left == 0 {
            self.faults = self.faults.saturating_add(1);
            return Err(WriteFail::Failed);
        }
        let taken = piece.len().min(self.most.min(left));
        self.bytes.extend_from_slice(&piece[..taken]).unwrap();
        Ok(taken)
    }
}
