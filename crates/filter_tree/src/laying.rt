//! The nodes of claims are laid, those to which a search comes last first.
ghost use Rattle.std.specs.Prelude.{◌≡◌, ◌<◌, ◌≤◌, ◌+◌, ◌++◌, ◌^◌, ◌∷◌, [], ◌==◌, true, length, filter, not, nat_lt, vec_capacity, IfNone, IfSome};
ghost use Rattle.std.specs.List.{list_all};
ghost use Rattle.std.specs.List.Sorted.{IsNonDecreasingBy};
ghost use Rattle.filter_core.specs.Filters.{is_atom, most_atoms};
ghost use Rattle.filter_tree.specs.Laying.{IsBegun, IsLaid, IsParted, MayLay, first_asked, nodes_for, test_node};
ghost use Rattle.filter_tree.specs.Nodes.{AreNodes, IsOnward};
ghost use Rattle.filter_tree.specs.Tree.{is_branch, leaf_value};

use crate::branching::{behind, branch_length, front};
use crate::leaf::Leaf;
use crate::node::{Node, Onward};
use filter_core::Atom;

/// Lays a node from which a search comes to no claim below the least number. There is room for it.
fn push(nodes: &mut Vec<Node>, node: Node, least: u32) -> Onward
    requires room { length nodes.old.items < vec_capacity nodes.old }
    requires few { length nodes.old.items < 2 ^ 32 }
    ensures place { result.place ≡ length nodes.old.items }
    ensures least { result.least ≡ least }
    ensures nodes { nodes.new.items ≡ nodes.old.items ++ node ∷ [] }
    ensures room { vec_capacity nodes.old ≤ vec_capacity nodes.new }
{
    let place = nodes.len() as u32;
    nodes.push(node).unwrap();
    Onward { place, least }
}

/// The node that tests an atom.
fn test_node(atom: Atom, hit: u32, miss: u32) -> Node
    ensures { result ≡ test_node atom hit miss }
{
    if atom.width == 1 {
        Node::Byte { atom, hit, miss }
    } else {
        Node::Test { atom, hit, miss }
    }
}

/// Lays the node that ends a search, before all others. No claim is to come from there.
pub(crate) fn lay_end(nodes: &mut Vec<Node>) -> Onward
    requires none { length nodes.old.items ≡ 0 }
    requires room { 1 ≤ vec_capacity nodes.old }
    ensures begun { IsBegun nodes.new.items result }
    ensures room { vec_capacity nodes.old ≤ vec_capacity nodes.new }
{
    push(nodes, Node::End, u32::MAX)
}

/// Lays leaves, whose atoms from a depth on are yet to be tested, in front of what comes next. There is room for their
/// nodes.
#[cycle(laying)]
pub(crate) fn lay(nodes: &mut Vec<Node>, leaves: &[Leaf], depth: usize, next: Onward) -> Onward
    requires { MayLay depth leaves.now next nodes.old.items (vec_capacity nodes.old) }
    ensures laid { IsLaid depth leaves.now next nodes.old.items nodes.new.items result }
    ensures room { vec_capacity nodes.old ≤ vec_capacity nodes.new }
{
    if leaves.is_empty() {
        return next;
    }
    if leaves.len() == 1 {
        return lay_alone(nodes, &leaves[0], depth, next);
    }
    match leaves[0].atom(depth) {
        Some(atom) => {
            let end = branch_length(leaves, depth, &atom);
            let next = lay(nodes, behind(leaves, end), depth, next);
            lay_branch(nodes, front(leaves, end), depth, &atom, next)
        }
        None => {
            let next = lay(nodes, behind(leaves, 1), depth, next);
            lay_claim(nodes, &leaves[0], depth, next)
        }
    }
}

/// Lays the leaves of a branch, which begin with the shape of this atom: it is that of the first.
#[cycle(laying)]
fn lay_branch(
    nodes: &mut Vec<Node>,
    leaves: &[Leaf],
    depth: usize,
    atom: &Atom,
    next: Onward,
) -> Onward
    requires may { MayLay depth leaves.now next nodes.old.items (vec_capacity nodes.old) }
    requires atom { is_atom atom.now ≡ true }
    requires value { atom.now.value ≡ first_asked depth leaves.now }
    requires branch { is_branch depth atom.now leaves.now ≡ true }
    requires deep { depth < most_atoms }
    ensures laid { IsLaid depth leaves.now next nodes.old.items nodes.new.items result }
    ensures room { vec_capacity nodes.old ≤ vec_capacity nodes.new }
{
    match parting(leaves, depth) {
        None => {
            let inside = lay(nodes, leaves, depth + 1, next);
            let node = test_node(*atom, inside.place, next.place);
            push(nodes, node, inside.least)
        }
        Some(_) => {
            let inside = lay_values(nodes, leaves, depth, atom, next);
            let node = Node::Read {
                atom: *atom,
                hit: inside.place,
                miss: next.place,
            };
            push(nodes, node, inside.least)
        }
    }
}

/// Lays leaves of a branch inside the node that reads its field: they are parted by the values for which they ask until
/// all ask for one.
#[cycle(laying)]
fn lay_values(
    nodes: &mut Vec<Node>,
    leaves: &[Leaf],
    depth: usize,
    atom: &Atom,
    next: Onward,
) -> Onward
    requires may { MayLay depth leaves.now next nodes.old.items (vec_capacity nodes.old) }
    requires branch { is_branch depth atom.now leaves.now ≡ true }
    requires deep { depth < most_atoms }
    ensures parted { IsParted depth leaves.now next nodes.old.items nodes.new.items result }
    ensures room { vec_capacity nodes.old ≤ vec_capacity nodes.new }
{
    match parting(leaves, depth) {
        None => {
            let value = leaves[0].value(depth);
            let inside = lay(nodes, leaves, depth + 1, next);
            let node = Node::Equal {
                value,
                hit: inside.place,
                miss: next.place,
            };
            push(nodes, node, inside.least)
        }
        Some(bound) => {
            let low = lay_values(nodes, below(leaves, depth, bound), depth, atom, next);
            let high = lay_values(nodes, from(leaves, depth, bound), depth, atom, next);
            let node = Node::Below {
                bound,
                low: low.place,
                high: high.place,
            };
            push(nodes, node, low.least.min(high.least))
        }
    }
}

/// Lays a leaf that has no atom at a depth or behind it.
fn lay_claim(nodes: &mut Vec<Node>, leaf: &Leaf, depth: usize, next: Onward) -> Onward
    requires last { length leaf.now.filter ≤ depth }
    requires nodes { AreNodes nodes.old.items }
    requires next { IsOnward nodes.old.items next }
    requires room { length nodes.old.items + 1 ≤ vec_capacity nodes.old }
    requires few { length nodes.old.items + 1 < 2 ^ 32 }
    ensures laid { IsLaid depth (leaf.now ∷ []) next nodes.old.items nodes.new.items result }
    ensures room { vec_capacity nodes.old ≤ vec_capacity nodes.new }
{
    let id = leaf.id();
    let node = Node::Claim {
        id,
        other: next.place,
        least: next.least,
    };
    push(nodes, node, next.least.min(id))
}

/// Lays a single leaf: its atoms are tested one after another.
fn lay_alone(nodes: &mut Vec<Node>, leaf: &Leaf, depth: usize, next: Onward) -> Onward
    requires nodes { AreNodes nodes.old.items }
    requires next { IsOnward nodes.old.items next }
    requires room { length nodes.old.items + nodes_for depth (leaf.now ∷ []) ≤ vec_capacity nodes.old }
    requires few { length nodes.old.items + nodes_for depth (leaf.now ∷ []) < 2 ^ 32 }
    ensures laid { IsLaid depth (leaf.now ∷ []) next nodes.old.items nodes.new.items result }
    ensures room { vec_capacity nodes.old ≤ vec_capacity nodes.new }
{
    let atoms = leaf.filter.atoms();
    let mut left = atoms.len().max(depth);
    let mut inside = lay_claim(nodes, leaf, left, next);
    while left > depth {
        left -= 1;
        let node = test_node(atoms[left], inside.place, next.place);
        inside = push(nodes, node, inside.least);
    }
    inside
}

/// A bound that parts leaves by the values for which they ask, about in the middle: some ask for lower values, and some
/// for others. None if all ask for one.
fn parting(leaves: &[Leaf], depth: usize) -> Option<u32>
    requires some { 0 < length leaves.now }
    requires rise { IsNonDecreasingBy (leaf_value depth) leaves.now }
    ensures none { IfNone result (list_all (λ c. first_asked depth leaves.now == leaf_value depth c) leaves.now ≡ true) }
    ensures low { IfSome result (λ bound. 0 < length (filter (λ c. nat_lt (leaf_value depth c) bound) leaves.now)) }
    ensures high { IfSome result (λ bound. 0 < length (filter (λ c. not (nat_lt (leaf_value depth c) bound)) leaves.now)) }
{
    let low = leaves[0].value(depth);
    let high = leaves[leaves.len() - 1].value(depth);
    if low == high {
        return None;
    }
    let middle = leaves[leaves.len() / 2].value(depth);
    Some(if middle > low { middle } else { low + 1 })
}

/// The leaves that ask for values below a bound.
fn below(leaves: &[Leaf], depth: usize, bound: u32) -> &[Leaf]
    requires { IsNonDecreasingBy (leaf_value depth) leaves.now }
    ensures { result.now ≡ filter (λ c. nat_lt (leaf_value depth c) bound) leaves.now }
{
    front(
        leaves,
        leaves.partition_point(|leaf| leaf.value(depth) < bound),
    )
}

/// The leaves that ask for a bound or higher values.
fn from(leaves: &[Leaf], depth: usize, bound: u32) -> &[Leaf]
    requires { IsNonDecreasingBy (leaf_value depth) leaves.now }
    ensures { result.now ≡ filter (λ c. not (nat_lt (leaf_value depth c) bound)) leaves.now }
{
    behind(
        leaves,
        leaves.partition_point(|leaf| leaf.value(depth) < bound),
    )
}
