//! The ledger while it is written.
ghost use Rattle.std.specs.Prelude.{◌≡◌, ◌+◌, ◌^◌, ◌<◌, ◌≤◌, IsOk, OnOk, OnErr};
ghost use Rattle.kernel_journal.specs.Ledger.{empty_ledger, spare_after, with_row};

use crate::row::Row;
use aegis_limits::OutOfMemory;
use std::alloc::Global;
use std::marker::Model;

/// The rows that the kernel wrote, in their order. Memory for rows is taken beforehand, by `room`,
/// so that writing one can't fail.
#[derive(Drop)]
pub struct Journal {
    rows: Vec<Row>,
    spare: usize,
}

impl Model for Journal {
    ghost use Rattle.std.specs.Prelude.{◌+◌, ◌≤◌, vec_len, vec_capacity};
    ghost use Rattle.kernel_journal.specs.Ledger.{Ledger};

    ghost Value = { Ledger };

    ghost view = { λ j. record { rows = j.rows.items; spare = j.spare } };

    ghost invariant = { λ j. vec_len j.rows + j.spare ≤ vec_capacity j.rows };
}

// For how many rows memory is taken, beside the rows that there are, when room for more is wanted.
fn growth(length: usize, rows: u32) -> usize
    requires { length < 2 ^ 63 }
    ensures { result ≡ length + rows }
{
    length + rows as usize
}

impl Journal {
    /// A journal without rows. It takes no memory.
    pub fn new(alloc: Global) -> Journal
        ensures { result ≡ empty_ledger }
    {
        Journal {
            rows: Vec::new(alloc),
            spare: 0,
        }
    }

    /// Takes memory for so many rows more, where it isn't there yet. Growth is amortized: when it
    /// takes memory, then for as many again as there are.
    pub fn room(&mut self, rows: u32) -> Result<(), OutOfMemory>
        ensures spare { OnOk result (rows ≤ self.new.spare) }
        ensures same_rows { self.new.rows ≡ self.old.rows }
        ensures taken { OnOk result (self.new.spare ≡ spare_after self.old rows) }

        // Where so many are spare already the journal stays as it is, and so does it after a refusal.
        ensures there_already { rows ≤ self.old.spare → IsOk result × (self.new ≡ self.old) }
        ensures refused { OnErr result (self.new ≡ self.old) }
    {
        if rows as usize <= self.spare {
            return Ok(());
        }
        let spare = growth(self.rows.len(), rows);
        self.rows.reserve_exact(spare)?;
        self.spare = spare;
        Ok(())
    }

    /// Writes one row at the end, in place of a spare one.
    pub fn push(&mut self, row: Row)
        requires { 0 < self.old.spare }
        ensures { self.new ≡ with_row self.old row }
    {
        self.rows.push(row).unwrap();
        self.spare -= 1;
    }

    /// All rows, in the order in which they were written.
    pub fn rows(&self) -> &[Row]
        ensures { result.now ≡ self.now.rows }
    {
        &self.rows
    }
}
