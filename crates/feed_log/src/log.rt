//! The log of an environment.
ghost use Rattle.std.specs.Prelude.{◌≡◌, ◌++◌, [], ◌∷◌, drop, replicate, true, ◌==◌, ◌<◌, ◌≤◌, false, IfOk, MatchOption, OnOk, OnErr};
ghost use Rattle.std.specs.List.{list_any};
ghost use Rattle.feed_log.specs.Views.{item_seen};
ghost use Rattle.world_model.specs.Item.{Step};
ghost use Rattle.feed_log.specs.Log.{StandsFirst, begins_kind, begins_seen, is_empty, shown};

use crate::entry::Entry;
use crate::view::{ItemKind, ItemView};
use aegis_limits::OutOfMemory;
use std::alloc::Global;
use std::marker::Model;

/// Whether a slice begins with items of this kind.
fn begins_slice(kind: ItemKind) -> bool
    ensures { result ≡ begins_kind kind }
{
    matches!(kind, ItemKind::Start | ItemKind::Transfer)
}

/// The items of an environment that nobody has read yet, in their order.
#[derive(Drop)]
pub struct FeedLog {
    alloc: Global,
    entries: Vec<Entry>,
    /// The entries before this one are read.
    unread: usize,
}

impl Model for FeedLog {
    ghost use Rattle.std.specs.Prelude.{◌≤◌, List, drop, length};
    ghost use Rattle.std.specs.List.{flat_map};
    ghost use Rattle.feed_log.specs.Views.{ItemSeen};
    ghost use Rattle.feed_log.specs.Log.{run_items};

    ghost Value = { List ItemSeen };

    ghost view = { λ log. flat_map run_items (drop log.unread log.entries.items) };

    ghost invariant = { λ log. log.unread ≤ length log.entries.items };
}

impl FeedLog {
    /// A log without items. It takes no memory.
    pub fn new(alloc: Global) -> FeedLog
        ensures { result ≡ [] }
    {
        FeedLog {
            alloc,
            entries: Vec::new(alloc),
            unread: 0,
        }
    }

    /// Appends an entry.
    fn append(&mut self, item: &ItemView<'_>, times: u32) -> Result<(), OutOfMemory>
        requires { 0 < times }
        ensures log { OnOk result (self.new ≡ self.old ++ replicate times (shown item.now)) }
        ensures same { OnErr result (self.new ≡ self.old) }
    {
        let entry = Entry::new(self.alloc, item, times)?;
        self.entries.push(entry)?;
        Ok(())
    }

    /// Appends an item, as it is shown.
    pub fn push(&mut self, item: &ItemView<'_>) -> Result<(), OutOfMemory>
        ensures log { OnOk result (self.new ≡ self.old ++ shown item.now ∷ []) }
        ensures same { OnErr result (self.new ≡ self.old) }
    {
        self.append(item, 1)
    }

    /// Appends so many steps, as one entry.
    pub fn push_steps(&mut self, count: u32) -> Result<(), OutOfMemory>
        ensures log { OnOk result (self.new ≡ self.old ++ replicate count (item_seen Step)) }
        ensures same { OnErr result (self.new ≡ self.old) }
    {
        if count == 0 {
            return Ok(());
        }
        let step = ItemView {
            kind: ItemKind::Step,
            a: 0,
            b: 0,
            bytes: &[],
        };
        self.append(&step, count)
    }

    /// The first item that isn't read, and how many times it stands there in a row, as far as that is known at once.
    pub fn first(&self) -> Option<(ItemView<'_>, u32)>
        ensures { MatchOption result (self.now ≡ []) (λ x. StandsFirst self.now (shown x.0) x.1) }
    {
        let entry = self.entries.get(self.unread)?;
        Some((entry.item(), entry.times()))
    }

    /// All items of another log are read there and told here. The answer is whether a slice begins with one of them.
    pub fn receive(&mut self, other: &mut FeedLog) -> Result<bool, OutOfMemory>
        ensures log { OnOk result (self.new ≡ self.old ++ other.old) }
        ensures begins { IfOk result (λ begins. begins ≡ list_any begins_seen other.old) }
    {
        let mut begins = false;
        while let Some((item, times)) = other.first() {
            begins |= begins_slice(item.kind);
            self.append(&item, times)?;
            other.skip(times);
        }
        Ok(begins)
    }

    /// Of the first items some are read, at most so many: how many.
    fn skip_first(&mut self, most: u32) -> u32
        ensures after { self.new ≡ drop result self.old }
        ensures some { 0 < most → is_empty self.old ≡ false → 0 < result }
        ensures most { result ≤ most }
    {
        let Some(entry) = self.entries.get_mut(self.unread) else {
            return 0;
        };
        let times = entry.times();
        if most < times {
            entry.lower(most);
            return most;
        }
        self.unread += 1;
        times
    }

    /// The first items, so many, are read, or all, if there are fewer.
    pub fn skip(&mut self, count: u32)
        ensures { self.new ≡ drop count self.old }
    {
        let mut left = count;
        while left > 0 && !self.is_empty() {
            left -= self.skip_first(left);
        }
    }

    /// Whether all items are read.
    pub fn is_empty(&self) -> bool
        ensures { result ≡ is_empty self.now }
    {
        self.first().is_none()
    }

    /// All items are read.
    pub fn clear(&mut self)
        ensures { self.new ≡ [] }
    {
        self.entries.clear();
        self.unread = 0;
    }
}
