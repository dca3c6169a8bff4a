//! Packets that are under way.
ghost use Rattle.std.specs.Prelude.{◌≡◌, ◌≤◌, ◌<◌, ◌+◌, ℕ, OnOk};
ghost use Rattle.wire_model.specs.Wire.{comes_to};
ghost use Rattle.wire_net.specs.Delivery.{Rise, due_at, first_arrival, is_delivery_for, is_due, packet_in};

use aegis_limits::OutOfMemory;
use external_event::{Event, Occurrence};
use std::alloc::Global;
use std::collections::VecDeque;
use wire_model::ALL_OTHERS;

/// A packet that arrives at its event's time at those machines for which it is.
#[derive(Drop)]
pub(crate) struct Delivery {
    /// The number of the machine that sent it.
    pub sender: u8,
    /// Its arrival.
    pub event: Event,
}

/// The deliveries of a time.
#[derive(Drop)]
pub(crate) struct Batch {
    /// When they arrive.
    pub time: u32,
    /// In the order in which they arrive.
    pub deliveries: Vec<Delivery>,
}

/// Whether a packet of one machine is for another.
fn comes_to(sender: u8, machine: u8, packet: &[u8]) -> bool
    ensures { result ≡ comes_to sender machine packet.now }
{
    match packet.get(5) {
        Some(byte) => machine != sender && (*byte == machine || *byte == ALL_OTHERS),
        None => false,
    }
}

/// The bytes of a packet that arrives.
fn packet_in(what: &Occurrence) -> &[u8]
    ensures { result.now ≡ packet_in what.now }
{
    match what {
        Occurrence::Packet(packet) => packet.bytes(),
        _ => &[],
    }
}

impl Delivery {
    /// Whether it is for this machine.
    pub fn is_for(&self, machine: u8) -> bool
        ensures { result ≡ is_delivery_for machine self.now }
    {
        comes_to(self.sender, machine, packet_in(&self.event.what))
    }
}

/// Whether the first batch is due at a time.
fn is_due(queue: &VecDeque<Batch>, time: u32) -> bool
    ensures { result ≡ is_due time queue.now.items }
{
    match queue.front() {
        Some(batch) => batch.time == time,
        None => false,
    }
}

/// Takes what is due at a time off the queue, in which nothing is of an earlier time.
pub(crate) fn take_due(
    alloc: Global,
    queue: &mut VecDeque<Batch>,
    time: u32,
    limit: u32,
) -> Vec<Delivery>
    requires { Rise time limit queue.old.items }
    ensures due { result.items ≡ due_at time queue.old.items }
    ensures rest { (t : ℕ) → time < t → due_at t queue.new.items ≡ due_at t queue.old.items }
    ensures rise { Rise (time + 1) limit queue.new.items }
{
    if !is_due(queue, time) {
        return Vec::new(alloc);
    }
    match queue.pop_front() {
        Some(batch) => batch.deliveries,
        None => Vec::new(alloc),
    }
}

/// When the first batch arrives, or another time where that is earlier.
pub(crate) fn first_arrival(queue: &VecDeque<Batch>, limit: u32) -> u32
    ensures { result ≡ first_arrival limit queue.now.items }
{
    match queue.front() {
        Some(batch) => batch.time.min(limit),
        None => limit,
    }
}

/// Puts deliveries of a time behind those of earlier times.
pub(crate) fn put(
    queue: &mut VecDeque<Batch>,
    time: u32,
    deliveries: Vec<Delivery>,
) -> Result<(), OutOfMemory>
    ensures last { (least : ℕ) → Rise least time queue.old.items → OnOk result (due_at time queue.new.items ≡ deliveries.items) }
    ensures others { OnOk result ((t : ℕ) → t < time → due_at t queue.new.items ≡ due_at t queue.old.items) }
    ensures rise { (least : ℕ) → least ≤ time → Rise least time queue.old.items → OnOk result (Rise least (time + 1) queue.new.items) }
{
    if !deliveries.is_empty() {
        queue.push_back(Batch { time, deliveries })?;
    }
    Ok(())
}
