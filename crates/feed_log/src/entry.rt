//! Items that stand in a row and are alike.
ghost use Rattle.std.specs.Prelude.{◌≡◌, ◌<◌, ◌-◌, IfOk};
ghost use Rattle.feed_log.specs.Log.{Run, shown};

use crate::view::{ItemKind, ItemView};
use aegis_limits::OutOfMemory;
use std::alloc::Global;
use std::marker::Model;

/// An item, and how many times it stands in a row.
#[derive(Drop)]
pub(crate) struct Entry {
    kind: ItemKind,
    a: u32,
    b: u32,
    bytes: Vec<u8>,
    times: u32,
}

impl Model for Entry {
    ghost use Rattle.std.specs.Prelude.{◌<◌};
    ghost use Rattle.feed_log.specs.Views.{view_of};
    ghost use Rattle.feed_log.specs.Log.{Run};

    ghost Value = { Run };

    ghost view = { λ e. record { item = view_of e.kind e.a e.b e.bytes.items; times = e.times } };

    ghost invariant = { λ e. 0 < e.times };
}

impl Entry {
    /// An item that stands so many times in a row. Its bytes are copied.
    pub(crate) fn new(alloc: Global, item: &ItemView<'_>, times: u32) -> Result<Entry, OutOfMemory>
        requires { 0 < times }
        ensures { IfOk result (λ e. e ≡ record { item = shown item.now; times = times }) }
    {
        let bytes = Vec::from_slice(alloc, item.bytes)?;
        Ok(Entry {
            kind: item.kind,
            a: item.a,
            b: item.b,
            bytes,
            times,
        })
    }

    /// The item.
    pub(crate) fn item(&self) -> ItemView<'_>
        ensures { shown result ≡ self.now.item }
    {
        ItemView {
            kind: self.kind,
            a: self.a,
            b: self.b,
            bytes: &self.bytes,
        }
    }

    /// How many times it stands in a row.
    pub(crate) fn times(&self) -> u32
        ensures times { result ≡ self.now.times }
        ensures some { 0 < result }
    {
        self.times
    }

    /// The first of them, so many, are read, and some are left.
    pub(crate) fn lower(&mut self, count: u32)
        requires { count < self.old.times }
        ensures { self.new ≡ record self.old { times = self.old.times - count } }
    {
        self.times -= count;
    }
}
