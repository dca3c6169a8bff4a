//! Tests of rows.
ghost use Rattle.std.specs.Prelude.{◌≡◌, Bool};
ghost use Rattle.r3k_tlb.specs.declared.row.Row.{Row};

use crate::row::Row;

/// A test by which rows are emptied.
pub trait RowTest {
    /// Whether a row is to be emptied.
    ghost test: { Self → Row → Bool };

    /// Whether this row is to be emptied.
    fn holds(&self, row: Row) -> bool
        ensures { result ≡ test self.now row };
}

/// Rows that lead to a page of physical memory.
#[derive(Drop)]
pub(crate) struct OfPage {
    pub(crate) page: u32,
}

impl RowTest for OfPage {
    ghost use Rattle.r3k_tlb.specs.Rows.{has_page};

    ghost test = { λ t. has_page t.page };

    fn holds(&self, row: Row) -> bool {
        row.page() == self.page
    }
}

/// Rows of a virtual page of a process.
#[derive(Drop)]
pub(crate) struct OfPair {
    pub(crate) vpn: u32,
    pub(crate) pid: u8,
}

impl RowTest for OfPair {
    ghost use Rattle.r3k_tlb.specs.Rows.{has_pair};

    ghost test = { λ t. has_pair t.vpn t.pid };

    fn holds(&self, row: Row) -> bool {
        row.vpn() == self.vpn && row.pid() == self.pid
    }
}

/// Rows of a process.
#[derive(Drop)]
pub(crate) struct OfPid {
    pub(crate) pid: u8,
}

impl RowTest for OfPid {
    ghost use Rattle.r3k_tlb.specs.Rows.{has_pid};

    ghost test = { λ t. has_pid t.pid };

    fn holds(&self, row: Row) -> bool {
        row.pid() == self.pid
    }
}
