//! What an environment writes.
ghost use Rattle.std.specs.Prelude.{◌≡◌, ◌+◌, ◌≤◌, [], ◌++◌, length, IfOk};
ghost use Rattle.aegis_limits.specs.Limits.{console_size};

use aegis_limits::{CONSOLE_SIZE, OutOfMemory};
use std::alloc::Global;
use std::marker::Model;

/// What an environment wrote. The memory for all that it may write is taken when it is made.
#[derive(Drop)]
pub struct Console {
    bytes: Vec<u8>,
}

impl Model for Console {
    ghost use Rattle.std.specs.Prelude.{ℕ, ◌≤◌, List, vec_len, vec_capacity};
    ghost use Rattle.aegis_limits.specs.Limits.{console_size};

    ghost Value = { List ℕ };

    ghost view = { λ c. c.bytes.items };

    ghost invariant = { λ c. (console_size ≤ vec_capacity c.bytes) × (vec_len c.bytes ≤ console_size) };
}

impl Console {
    /// An empty console.
    pub fn new(alloc: Global) -> Result<Console, OutOfMemory>
        ensures { IfOk result (λ c. c ≡ []) }
    {
        let bytes = Vec::with_capacity(alloc, CONSOLE_SIZE)?;
        Ok(Console { bytes })
    }

    /// How many bytes it holds.
    pub fn len(&self) -> usize
        ensures len { result ≡ length self.now }
        ensures within { result ≤ console_size }
    {
        self.bytes.len()
    }

    /// What it holds.
    pub fn bytes(&self) -> &[u8]
        ensures { result.now ≡ self.now }
    {
        self.bytes.as_slice()
    }

    /// Appends bytes, for which there must be room.
    pub fn put(&mut self, bytes: &[u8])
        requires { length self.old + length bytes.now ≤ console_size }
        ensures { self.new ≡ self.old ++ bytes.now }
    {
        self.bytes.extend_from_slice(bytes).unwrap();
    }
}
