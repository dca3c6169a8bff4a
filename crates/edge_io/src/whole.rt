//! Writing all of some bytes.
ghost use Rattle.std.specs.Prelude.{◌≡◌, ◌≤◌, IsOk, OnOk, OnErr, length};
ghost use Rattle.edge_io.specs.Faults.{one_more};
ghost use Rattle.std.specs.Io.KnownBytes.{Appends};
ghost use Rattle.edge_io.specs.Written.{AppendsPart};

use crate::sink::{Sink, WriteFail};

/// Writes all of the bytes, piece by piece, up to a failure. Then a first part of them was written,
/// and not all.
pub fn write_whole<K: Sink>(out: &mut K, bytes: &[u8]) -> Result<(), WriteFail>
    ensures all { OnOk result (Appends (K.written out.old) (K.written out.new) bytes.now) }
    ensures no_fault { OnOk result (K.faults out.new ≡ K.faults out.old) }

    ensures failed_counted { OnErr result (K.faults out.new ≡ one_more (K.faults out.old)) }
    ensures failed_part { OnErr result (AppendsPart (K.written out.old) (K.written out.new) bytes.now) }
    ensures never_falls { K.faults out.old ≤ K.faults out.new }

    ensures sure { K.Takes out.old (length bytes.now) → IsOk result }
{
    let mut done = 0;
    while done < bytes.len() {
        done += out.write(&bytes[done..])?;
    }
    Ok(())
}
