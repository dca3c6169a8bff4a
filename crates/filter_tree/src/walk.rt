//! How a search goes among the nodes of the tree.
ghost use Rattle.std.specs.Prelude.{ℕ, ◌≡◌, ◌<◌, ◌≤◌, ◌+◌, Some, length, slice_index_or, if◌then◌else◌};
ghost use Rattle.filter_core.specs.declared.atom.Atom.{Atom as FilterAtom};
ghost use Rattle.filter_core.specs.Matching.{atom_matches};
ghost use Rattle.filter_tree.specs.declared.node.Node.TheVariants.{Byte, End};
ghost use Rattle.filter_tree.specs.Nodes.{AreNodes, IsStop, found_at, reads_at};
ghost use Rattle.filter_tree.specs.Tree.{lower_number};

use crate::node::Node;
use crate::steps::Steps;
use filter_core::{Atom, Packet};
use std::sync::ledger::Ledger as StepLedger;

/// The lower of a number that was found before, if there is one, and another.
fn lower_number(found: Option<u32>, id: u32) -> u32
    ensures { Some result ≡ lower_number found (Some id) }
{
    match found {
        Some(before) if before < id => before,
        _ => id,
    }
}

/// Where a search goes on behind a test of one byte.
#[inline(always)]
fn onward(atom: &Atom, hit: u32, miss: u32, packet: &Packet<'_>) -> u32
    requires { atom.now.width ≡ 1 }
    ensures { result ≡ (if atom_matches atom.now packet.now then hit else miss) }
{
    match packet.bytes().get(usize::from(atom.offset)) {
        Some(byte) if u32::from(*byte) & atom.mask == atom.value => hit,
        _ => miss,
    }
}

/// Where a search goes on that begins at a place, once it is past tests of one byte. Each field that is read of the
/// packet is a step.
#[inline(always)]
fn past_bytes<L: StepLedger>(
    nodes: &[Node],
    start: u32,
    packet: &Packet<'_>,
    steps: &mut Steps<L>,
) -> u32
    requires nodes { AreNodes nodes.now }
    requires within { start < length nodes.now }
    ensures onward { (a : FilterAtom) (hit miss : ℕ) → slice_index_or nodes.now start End ≡ Byte a hit miss → result < start }
    ensures found { (v : ℕ) → found_at packet.now nodes.now result v ≡ found_at packet.now nodes.now start v }
    ensures steps { (v : ℕ) → steps.new + reads_at packet.now nodes.now result v ≤ steps.old + reads_at packet.now nodes.now start v }
{
    let mut place = start;
    while let Node::Byte { atom, hit, miss } = &nodes[place as usize] {
        steps.tick();
        place = onward(atom, *hit, *miss, packet);
    }
    place
}

/// The place of the first claim to which a search comes, or of its end. It begins at a place, and what it read last may
/// decide where it goes. Each field that is read of the packet is a step.
#[inline(always)]
fn past_tests<L: StepLedger>(
    nodes: &[Node],
    start: u32,
    read: &mut u32,
    packet: &Packet<'_>,
    steps: &mut Steps<L>,
) -> u32
    requires nodes { AreNodes nodes.now }
    requires within { start < length nodes.now }
    ensures onward { result ≤ start }
    ensures stop { IsStop (slice_index_or nodes.now result End) }
    ensures found { found_at packet.now nodes.now result read.new ≡ found_at packet.now nodes.now start read.old }
    ensures steps { steps.new + reads_at packet.now nodes.now result read.new ≤ steps.old + reads_at packet.now nodes.now start read.old }
{
    let mut place = start;
    loop {
        match &nodes[place as usize] {
            Node::Test { atom, hit, miss } => {
                steps.tick();
                place = if atom.matches(packet) { *hit } else { *miss };
            }
            Node::Byte { .. } => place = past_bytes(nodes, place, packet, steps),
            Node::Read { atom, hit, miss } => {
                steps.tick();
                match packet.field(atom.offset, atom.width) {
                    Some(field) => {
                        *read = field & atom.mask;
                        place = *hit;
                    }
                    None => place = *miss,
                }
            }
            Node::Below { bound, low, high } => place = if *read < *bound { *low } else { *high },
            Node::Equal { value, hit, miss } => place = if *value == *read { *hit } else { *miss },
            Node::End | Node::Claim { .. } => return place,
        }
    }
}

/// The lowest claim that a search finds for a packet which begins at a place. Each field that is read of the packet is a
/// step.
pub(crate) fn walk<L: StepLedger>(
    nodes: &[Node],
    start: u32,
    packet: &Packet<'_>,
    steps: &mut Steps<L>,
) -> Option<u32>
    requires nodes { AreNodes nodes.now }
    requires start { start < length nodes.now }
    ensures answer { result ≡ found_at packet.now nodes.now start 0 }
    ensures steps { steps.new ≤ steps.old + reads_at packet.now nodes.now start 0 }
{
    let mut place = start;
    let mut read = 0;
    let mut found = None;
    loop {
        place = past_tests(nodes, place, &mut read, packet, steps);
        match &nodes[place as usize] {
            Node::Claim { id, other, least } => {
                let lowest = lower_number(found, *id);
                if lowest < *least {
                    return Some(lowest);
                }
                found = Some(lowest);
                place = *other;
            }
            _ => return found,
        }
    }
}
