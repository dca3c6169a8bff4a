//! The leaves of the tree of claims.
ghost use Rattle.std.specs.Prelude.{◌≡◌, ◌<◌, ◌≤◌, ◌+◌, [], ◌∷◌, drop, length, IfNone, IfSome, true};
ghost use Rattle.filter_core.specs.Filters.{is_atom, most_atoms};
ghost use Rattle.filter_tree.specs.Tree.{begins, has_shape, is_before, numbers, leaf_value};
ghost use Rattle.filter_tree.specs.Withdrawals.{is_withdrawn};

use crate::withdrawal::Withdrawal;
use filter_core::{Atom, Filter};
use std::marker::Model;

/// A claim, as the tree has it.
#[derive(Drop)]
pub(crate) struct Leaf {
    pub(crate) id: u32,
    pub(crate) env: u8,
    pub(crate) page: u32,
    pub(crate) filter: Filter,
}

impl Model for Leaf {
    ghost use Rattle.filter_tree.specs.ClaimBook.{ClaimValue};

    ghost Value = { ClaimValue };

    ghost view = { λ leaf. record { id = leaf.id; env = leaf.env; filter = leaf.filter; page = leaf.page } };
}

impl Leaf {
    /// The claim's number.
    pub(crate) fn id(&self) -> u32
        ensures { result ≡ self.now.id }
    {
        self.id
    }

    /// Whether it is withdrawn.
    pub(crate) fn is_withdrawn(&self, withdrawal: Withdrawal) -> bool
        ensures { result ≡ is_withdrawn withdrawal self.now }
    {
        withdrawal.takes(self.id, self.env, self.page)
    }

    /// The atom at a depth of the tree.
    pub(crate) fn atom(&self, depth: usize) -> Option<Atom>
        ensures atom { IfSome result (λ a. drop depth self.now.filter ≡ a ∷ drop (depth + 1) self.now.filter) }
        ensures none { IfNone result (drop depth self.now.filter ≡ []) }
        ensures good { IfSome result (λ a. is_atom a ≡ true) }
        ensures within { IfSome result (λ a. depth < most_atoms) }
    {
        self.filter.atoms().get(depth).copied()
    }

    /// Law: it has no more atoms than the longest filter.
    pub(crate) fn law_short(&self)
        ensures { length self.now.filter ≤ most_atoms }
    {
        let _atoms = self.filter.atoms();
    }

    /// Whether its atom at a depth is there and has the shape of this one.
    pub(crate) fn begins(&self, depth: usize, atom: &Atom) -> bool
        ensures { result ≡ begins depth atom.now self.now }
    {
        match self.atom(depth) {
            Some(own) => has_shape(atom, &own),
            None => false,
        }
    }

    /// The value for which its atom at a depth asks, or 0.
    pub(crate) fn value(&self, depth: usize) -> u32
        ensures { result ≡ leaf_value depth self.now }
    {
        match self.atom(depth) {
            Some(own) => own.value,
            None => 0,
        }
    }

    /// Whether it comes before another filter, or has the same.
    pub(crate) fn is_before(&self, filter: &Filter) -> bool
        ensures { result ≡ is_before (numbers self.now.filter) (numbers filter.now) }
    {
        is_before(self.filter.atoms(), filter.atoms())
    }
}

/// Whether two atoms have the same shape.
fn has_shape(left: &Atom, right: &Atom) -> bool
    ensures { result ≡ has_shape left.now right.now }
{
    left.offset == right.offset && left.width == right.width && left.mask == right.mask
}

/// Whether some atoms come before others, or are the same.
fn is_before(left: &[Atom], right: &[Atom]) -> bool
    ensures { result ≡ is_before (numbers left.now) (numbers right.now) }
{
    for (place, atom) in left.iter().enumerate() {
        if place >= right.len() {
            return false;
        }
        let other = &right[place];
        if atom.offset != other.offset {
            return atom.offset < other.offset;
        }
        if atom.width != other.width {
            return atom.width < other.width;
        }
        if atom.mask != other.mask {
            return atom.mask < other.mask;
        }
        if atom.value != other.value {
            return atom.value < other.value;
        }
    }
    true
}
