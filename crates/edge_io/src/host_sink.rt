//! A writer as a sink, as the host's standard output.
ghost use Rattle.std.specs.Prelude.{◌≡◌, ◌<◌, ◌≤◌, IfSome, IfNone, length, take};
ghost use Rattle.std.specs.Io.KnownBytes.{Appends as Adds, Keeps};

use crate::sink::{Sink, WriteFail};
use std::io::{ErrorKind, Write};

/// A writer, one write after another. As a sink it tells of what was written what the writer tells: of
/// the host's standard output, nothing.
#[derive(Drop)]
pub struct HostSink<W: Write> {
    /// Where it writes to.
    pub out: W,
    /// How many writes failed. It stays at `u64::MAX`.
    pub faults: u64,
}

impl<W: Write> HostSink<W> {
    /// A sink before this writer, with no fault so far.
    pub fn new(out: W) -> HostSink<W>
        ensures out { result.out ≡ out }
        ensures no_faults { result.faults ≡ 0 }
    {
        HostSink { out, faults: 0 }
    }
}

// Writes some of the piece, and tries again where a signal came first. Zero bytes are a failure.
fn write_some<W: Write>(out: &mut W, piece: &[u8]) -> Option<usize>
    ensures some_taken { IfSome result (λ n. 0 < n) }
    ensures within_piece { IfSome result (λ n. n ≤ length piece.now) }
    ensures appended { IfSome result (λ n. Adds (W.contents out.old) (W.contents out.new) (take n piece.now)) }
    ensures failed_nothing { IfNone result (Keeps (W.contents out.old) (W.contents out.new)) }
{
    for _ in 0..u64::MAX {
        match out.write(piece) {
            Ok(0) => return None,
            Ok(n) => return Some(n),
            Err(e) if e.kind() == ErrorKind::Interrupted => {}
            Err(_) => return None,
        }
    }
    None
}

impl<W: Write> Sink for HostSink<W> {
    ghost written = { λ s. W.contents s.out };

    ghost faults = { λ s. s.faults };

    // Nothing is sure of the host.
    ghost Takes = { λ _ _. ⊥ };

    fn write(&mut self, piece: &[u8]) -> Result<usize, WriteFail> {
        match write_some(&mut self.out, piece) {
            Some(n) => Ok(n),
            None => {
                self.faults = self.faults.saturating_add(1);
                Err(WriteFail::Failed)
            }
        }
    }
}
