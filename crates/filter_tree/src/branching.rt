//! Leaves that begin alike are neighbours.
ghost use Rattle.std.specs.Prelude.{◌≡◌, ◌≤◌, drop, length, take, true};
ghost use Rattle.filter_tree.specs.Tree.{AreInOrder, IsSplit, begins, starts_with};

use crate::leaf::Leaf;
use filter_core::Atom;

/// How many leaves at the front begin as the first does, with this atom's shape.
pub(crate) fn branch_length(leaves: &[Leaf], depth: usize, atom: &Atom) -> usize
    requires order { AreInOrder depth leaves.now }
    requires first { starts_with depth atom.now leaves.now ≡ true }
    ensures { IsSplit (begins depth atom.now) leaves.now result }
{
    if leaves.len() < 2 {
        return 1;
    }
    if !leaves[1].begins(depth, atom) {
        return 1;
    }
    leaves.partition_point(|leaf| leaf.begins(depth, atom))
}

/// The first so many leaves.
pub(crate) fn front(leaves: &[Leaf], end: usize) -> &[Leaf]
    requires { end ≤ length leaves.now }
    ensures { result.now ≡ take end leaves.now }
{
    &leaves[..end]
}

/// The leaves behind the first so many.
pub(crate) fn behind(leaves: &[Leaf], start: usize) -> &[Leaf]
    requires { start ≤ length leaves.now }
    ensures { result.now ≡ drop start leaves.now }
{
    &leaves[start..]
}
