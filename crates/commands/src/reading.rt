//! What a shelf has read, from one place on.
ghost use Rattle.std.specs.Prelude.{◌≡◌, ◌≤◌, drop, length};
ghost use Rattle.edge_io.specs.Reads.{held};

use edge_io::Shelf;

/// How many files a shelf has read.
pub(crate) fn count_read<S: Shelf>(shelf: &S) -> usize
    ensures { result ≡ length (S.readings shelf.now).contents }
{
    shelf.contents().len()
}

/// The contents of the files that a shelf has read behind the first ones, of which there are so many.
pub(crate) fn read_behind<S: Shelf>(shelf: &S, count: usize) -> &[Vec<u8>]
    requires { count ≤ length (S.readings shelf.now).contents }
    ensures { held result.now ≡ drop count (S.readings shelf.now).contents }
{
    &shelf.contents()[count..]
}
