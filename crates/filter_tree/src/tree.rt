//! The tree of claims.
ghost use Rattle.std.specs.Prelude.{◌≡◌, ◌<◌, ◌≤◌, ◌+◌, ◌^◌, [], filter, length, not, IfOk};
ghost use Rattle.filter_tree.specs.Claims.{is_for};
ghost use Rattle.filter_tree.specs.Prefixes.{prefixes_from};
ghost use Rattle.filter_tree.specs.Tree.{lowest, leaf_place, planted};
ghost use Rattle.filter_tree.specs.Withdrawals.{is_withdrawn};

use crate::branch::{Branch, lay_out};
use crate::laying::lay_end;
use crate::leaf::Leaf;
use crate::node::Node;
use crate::steps::Steps;
use crate::walk::walk;
use crate::withdrawal::Withdrawal;
use aegis_limits::OutOfMemory;
use filter_core::{Filter, Packet};
use std::alloc::Global;
use std::marker::Model;
use std::sync::ledger::Ledger as StepLedger;

/// The nodes for a claim: itself, and at most two for each of its sixteen atoms.
const NODES: usize = 33;

/// The claims as one tree. Under a node stand claims whose filters begin alike: they part by the shape of their next atom,
/// and then by its value. So the field of a shape is read once for all of them, and those that ask for what it holds are
/// found by halving. Where a claim comes or goes, the tree is laid out anew as a list of nodes.
#[derive(Drop)]
pub(crate) struct Tree {
    leaves: Vec<Leaf>,
    branches: Vec<Branch>,
    nodes: Vec<Node>,
    start: u32,
    room: usize,
}

impl Model for Tree {
    ghost use Rattle.std.specs.Prelude.{vec_capacity};
    ghost use Rattle.filter_tree.specs.Laying.{HasTreeRoom, IsTree};
    ghost use Rattle.filter_tree.specs.Tree.{TreeValue};

    ghost Value = { TreeValue };

    ghost view = { λ tree. record { leaves = tree.leaves.items; room = tree.room } };

    ghost invariant = { λ tree. IsTree tree.leaves.items tree.nodes.items tree.start tree.room
        × HasTreeRoom tree.room (vec_capacity tree.leaves) (vec_capacity tree.branches) (vec_capacity tree.nodes) };
}

/// Behind how many leaves a filter has its place.
fn place_of(leaves: &[Leaf], filter: &Filter) -> usize
    ensures { result ≡ leaf_place filter.now leaves.now }
{
    for (place, leaf) in leaves.iter().enumerate() {
        if !leaf.is_before(filter) {
            return place;
        }
    }
    leaves.len()
}

impl Tree {
    /// No claims, with room for so many.
    pub(crate) fn new(alloc: Global, room: usize) -> Result<Tree, OutOfMemory>
        requires { room < 2 ^ 16 }
        ensures leaves { IfOk result (λ tree. tree.leaves ≡ []) }
        ensures room { IfOk result (λ tree. tree.room ≡ room) }
    {
        let leaves = Vec::with_capacity(alloc, room)?;
        let branches = Vec::with_capacity(alloc, room)?;
        let mut nodes = Vec::with_capacity(alloc, NODES * room + 1)?;
        let start = lay_end(&mut nodes).place;
        Ok(Tree {
            leaves,
            branches,
            nodes,
            start,
            room,
        })
    }

    /// Puts a claim in its place. There is room for it.
    pub(crate) fn plant(&mut self, leaf: Leaf)
        requires { length self.old.leaves < self.old.room }
        ensures leaves { self.new.leaves ≡ planted leaf self.old.leaves }
        ensures room { self.new.room ≡ self.old.room }
    {
        leaf.law_short();
        let place = place_of(&self.leaves, &leaf.filter);
        self.leaves.insert(place, leaf).unwrap();
        self.start = lay_out(&self.leaves, &mut self.branches, &mut self.nodes);
    }

    /// The lowest claim whose filter matches a packet. Each field that is read of the packet is a step.
    pub(crate) fn find<L: StepLedger>(
        &self,
        packet: &Packet<'_>,
        steps: &mut Steps<L>,
    ) -> Option<u32>
        ensures answer { result ≡ lowest (is_for packet.now) self.now.leaves }
        ensures steps { steps.new ≤ steps.old + prefixes_from 0 self.now.leaves }
    {
        walk(&self.nodes, self.start, packet, steps)
    }

    /// Takes claims away.
    pub(crate) fn withdraw(&mut self, withdrawal: Withdrawal)
        ensures leaves { self.new.leaves ≡ filter (λ c. not (is_withdrawn withdrawal c)) self.old.leaves }
        ensures room { self.new.room ≡ self.old.room }
    {
        self.leaves.retain(|leaf| !leaf.is_withdrawn(withdrawal));
        self.start = lay_out(&self.leaves, &mut self.branches, &mut self.nodes);
    }
}
