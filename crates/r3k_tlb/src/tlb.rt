//! The TLB.
ghost use Rattle.std.specs.Prelude.{◌≡◌, ◌<◌, Bool, IfSome, length, slice_get, unwrap_or, ℕ};
ghost use Rattle.std.specs.List.{list_any};
ghost use Rattle.r3k_tlb.specs.declared.row.Row.{Row};
ghost use Rattle.r3k_tlb.specs.Row.{emptied_row, page_numbers, pid_numbers};
ghost use Rattle.r3k_tlb.specs.Rows.{emptied_rows, emptied_where, first_fitting, first_fitting_place, has_page, has_pair, has_pid, row_at, row_count, with_row_at};

use crate::index::{PLACE_COUNT, first_with, hash_of, mark, set_bit};
use crate::row::{PAGE_NUMBERS, PID_NUMBERS, Row, USER_END, hi_word};
use crate::row_test::{OfPage, OfPair, OfPid, RowTest};
use std::marker::Model;

/// How many rows there are.
pub const ROW_COUNT: usize = 64;

/// The rows of the TLB, with an index by their first words.
#[derive(Drop)]
pub struct Tlb {
    rows: [Row; ROW_COUNT],
    index: [u64; PLACE_COUNT],
    /// The bits of the rows of which the first word alone doesn't tell what they fit.
    odd: u64,
}

impl Model for Tlb {
    ghost use Rattle.std.specs.Prelude.{List};
    ghost use Rattle.r3k_tlb.specs.declared.row.Row.{Row};
    ghost use Rattle.r3k_tlb.specs.Index.{IsIndexed};

    ghost Value = { List Row };

    ghost view = { λ t. t.rows };

    ghost invariant = { λ t. IsIndexed t.rows t.index t.odd };
}

impl Tlb {
    /// A TLB of which all rows are emptied.
    pub fn new() -> Tlb
        ensures { result ≡ emptied_rows }
    {
        Tlb {
            rows: [Row::emptied(); ROW_COUNT],
            index: [0; PLACE_COUNT],
            odd: 0,
        }
    }

    /// Law: there are so many rows.
    pub fn law_count(&self)
        ensures { length self.now ≡ row_count }
    {
        let _ = &self.rows;
    }

    /// The number of the lowest row that fits this virtual page and process.
    pub fn probe(&self, vpn: u32, pid: u8) -> Option<u8>
        ensures answer { result ≡ first_fitting_place vpn pid self.now }
        ensures within { IfSome result (λ i. i < row_count) }
    {
        match self.place_of_fitting(vpn, pid) {
            Some(place) => Some(place as u8),
            None => None,
        }
    }

    /// The same as an index of the rows.
    fn place_of_fitting(&self, vpn: u32, pid: u8) -> Option<usize>
        ensures answer { result ≡ first_fitting_place vpn pid self.now }
        ensures within { IfSome result (λ i. i < row_count) }
    {
        self.rows.iter().position(|row| row.fits(vpn, pid))
    }

    /// The lowest row that fits this virtual page, below 0x100000, and process, below 64.
    #[inline(always)]
    pub fn fitting(&self, vpn: u32, pid: u8) -> Option<Row>
        requires vpn { vpn < page_numbers }
        requires pid { pid < pid_numbers }
        ensures { result ≡ first_fitting vpn pid self.now }
    {
        if self.odd != 0 || vpn >= USER_END >> 12 {
            return self.get(self.scan(vpn, pid));
        }
        let word = hi_word(vpn, pid);
        first_with(&self.rows, self.index[hash_of(word)], word)
    }

    /// The place of the lowest row that fits, for any rows and numbers, row by row; or how many rows there are, if none
    /// does. It is one number, which a caller keeps in a register of the host.
    #[inline(never)]
    fn scan(&self, vpn: u32, pid: u8) -> usize
        ensures { result ≡ unwrap_or (first_fitting_place vpn pid self.now) row_count }
    {
        self.place_of_fitting(vpn, pid).unwrap_or(ROW_COUNT)
    }

    /// The row at a place, if there is one.
    fn get(&self, place: usize) -> Option<Row>
        ensures { result ≡ slice_get self.now place }
    {
        self.rows.get(place).copied()
    }

    /// The row with this number, below 64.
    pub fn read(&self, i: u8) -> Row
        requires { i < row_count }
        ensures row { result ≡ row_at self.now i }
        ensures count { length self.now ≡ row_count }
    {
        self.rows[usize::from(i)]
    }

    /// Writes the two words of the row with this number, below 64.
    pub fn write(&mut self, i: u8, hi: u32, lo: u32)
        requires { i < row_count }
        ensures row { self.new ≡ with_row_at self.old i (record { hi = hi; lo = lo }) }
        ensures count { length self.new ≡ row_count }
    {
        let row = Row { hi, lo };
        mark(&mut self.index, self.rows[usize::from(i)], i, false);
        mark(&mut self.index, row, i, true);
        self.odd = set_bit(self.odd, i, row.is_odd());
        self.rows[usize::from(i)] = row;
    }

    /// Empties the rows of which a test says so.
    pub fn drop_where<T: RowTest>(&mut self, test: &T)
        ensures { self.new ≡ emptied_where (T.test test.now) self.old }
    {
        let _ = &self.rows;
        for i in 0..ROW_COUNT as u8 {
            if test.holds(self.read(i)) {
                self.empty(i);
            }
        }
    }

    /// Whether a row leads to this page of physical memory. All rows are asked, without a branch, several at once.
    fn leads_to_page(&self, page: u32) -> bool
        ensures { result ≡ list_any (has_page page) self.now }
    {
        let mut found = false;
        for row in &self.rows {
            found |= row.page() == page;
        }
        found
    }

    /// Empties the rows that lead to this page of physical memory, which most pages have none of.
    pub fn drop_page(&mut self, page: u32)
        ensures { self.new ≡ emptied_where (has_page page) self.old }
    {
        if self.leads_to_page(page) {
            self.drop_where(&OfPage { page });
        }
    }

    /// Empties the rows of this virtual page and process.
    #[inline(always)]
    pub fn drop_pair(&mut self, vpn: u32, pid: u8)
        ensures { self.new ≡ emptied_where (has_pair vpn pid) self.old }
    {
        if vpn < PAGE_NUMBERS && pid < PID_NUMBERS && self.fitting(vpn, pid).is_none() {
            return;
        }
        self.drop_where(&OfPair { vpn, pid });
    }

    /// Empties the rows of this process.
    pub fn clear_pid(&mut self, pid: u8)
        ensures { self.new ≡ emptied_where (has_pid pid) self.old }
    {
        self.drop_where(&OfPid { pid });
    }

    /// Empties the row with this number, below 64.
    fn empty(&mut self, i: u8)
        requires { i < row_count }
        ensures { self.new ≡ with_row_at self.old i emptied_row }
    {
        let row = Row::emptied();
        self.write(i, row.hi, row.lo);
    }
}
