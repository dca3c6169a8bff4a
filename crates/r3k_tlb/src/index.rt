//! The index of the rows by their first words: a bit for each row, at the place that is the hash of its first word.
ghost use Rattle.std.specs.Prelude.{◌≡◌, ◌<◌, length};
ghost use Rattle.std.specs.List.{find};
ghost use Rattle.r3k_tlb.specs.Index.{Covers, IsBitSet, IsMarked, has_word, place_count, hash_of};
ghost use Rattle.r3k_tlb.specs.Rows.{row_count};

use crate::row::{Row, USER_END};
use crate::tlb::ROW_COUNT;

/// How many places the index has.
pub(crate) const PLACE_COUNT: usize = 256;

/// The place of a first word: a hash of all of it.
#[inline(always)]
#[tactic(auto, unfolding(crate::specs::Index::hash_of))]
pub(crate) fn hash_of(word: u32) -> usize
    ensures hash { result ≡ hash_of word }
    ensures within { result < place_count }
{
    (word.wrapping_mul(0x9e37_79b1) >> 24) as usize
}

/// The lowest row that has this first word; it is one of those whose bits are set.
#[inline(always)]
pub(crate) fn first_with(rows: &[Row; ROW_COUNT], bits: u64, word: u32) -> Option<Row>
    requires { Covers rows.now bits word }
    ensures { result ≡ find (has_word word) rows.now }
{
    let mut left = bits;
    while left != 0 {
        let lowest = left.trailing_zeros();
        let row = rows[lowest as usize];
        if row.hi == word {
            return Some(row);
        }
        left &= !(1 << lowest);
    }
    None
}

/// Writes bit `i`, below 64.
pub(crate) fn set_bit(bits: u64, i: u8, to: bool) -> u64
    requires { i < row_count }
    ensures { IsBitSet bits i to result }
{
    if to {
        bits | (1 << i)
    } else {
        bits & !(1 << i)
    }
}

/// Writes the bit of row `i`, below 64, at the place of its first word.
pub(crate) fn mark(index: &mut [u64; PLACE_COUNT], row: Row, i: u8, to: bool)
    requires count { length index.old ≡ place_count }
    requires row { i < row_count }
    ensures { IsMarked index.old row i to index.new }
{
    if row.hi < USER_END {
        let place = hash_of(row.hi);
        index[place] = set_bit(index[place], i, to);
    }
}
