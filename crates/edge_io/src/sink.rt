//! What the output is written to.
ghost use Rattle.std.specs.Prelude.{◌≡◌, ℕ, ◌-◌, ◌<◌, ◌≤◌, List, Option, IsOk, IfOk, OnOk, OnErr, length, take};
ghost use Rattle.edge_io.specs.Faults.{one_more};
ghost use Rattle.std.specs.Io.KnownBytes.{Appends, Keeps};

/// Why a write took nothing.
#[derive(Clone, Copy)]
pub enum WriteFail {
    /// The sink counted a fault.
    Failed,
}

/// A place that bytes are written to, one after another.
pub trait Sink {
    // All bytes that were written, where the sink says so.
    ghost written: { Self → Option (List ℕ) };

    // How many writes failed. It stays at the counter's last value.
    ghost faults: { Self → ℕ };

    // So many more bytes are sure to be taken, in whatever pieces.
    ghost Takes: { Self → ℕ → Type 0 };

    /// Writes some of the piece, from its beginning, and answers how many bytes: at least one.
    fn write(&mut self, piece: &[u8]) -> Result<usize, WriteFail>
        requires { 0 < length piece.now }

        ensures some_taken { IfOk result (λ n. 0 < n) }
        ensures within_piece { IfOk result (λ n. n ≤ length piece.now) }
        ensures appended { IfOk result (λ n.
            Appends (written self.old) (written self.new) (take n piece.now)) }
        ensures no_fault { OnOk result (faults self.new ≡ faults self.old) }

        // A failure is counted, and nothing of the piece was appended.
        ensures failed_counted { OnErr result (faults self.new ≡ one_more (faults self.old)) }
        ensures failed_nothing { OnErr result (Keeps (written self.old) (written self.new)) }
        ensures never_falls { faults self.old ≤ faults self.new }

        ensures sure { (k : ℕ) → Takes self.old k → length piece.now ≤ k → IsOk result }
        ensures sure_of_rest { IfOk result (λ n.
            (k : ℕ) → Takes self.old k → Takes self.new (k - n)) };
}
