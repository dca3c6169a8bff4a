//! A run and what is told of it.
ghost use Rattle.std.specs.Prelude.{◌≡◌, ◌≤◌, ◌+◌, IfOk, OnOk, length};
ghost use Rattle.run_model.specs.Run.{world_after};
ghost use Rattle.feed_log.specs.Progress.{Passed, Progress, IsFirst, ended, told, unread};

use crate::view::ItemView;
use aegis_limits::OutOfMemory;
use world_model::WorldView;

/// A run of which the items of one environment are told: its record at boot, and then what each tick gives it, in their
/// order (`docs/MODEL.md`, "An environment alone"). Whoever drives the run reads them, and makes it go on.
pub trait ToldRun {
    /// What shows its world.
    type View: WorldView;

    /// How far it has come.
    ghost progress: { Self → Progress };

    /// No memory was wanting so far. A run of which that isn't so is given up.
    ghost IsWhole: { Self → Type 0 };

    /// Its world after the ticks that it has made.
    fn view(&self) -> &Self::View
        requires { IsWhole self.now }
        ensures { Self.View.world result.now ≡ world_after (progress self.now).system (progress self.now).ticks };

    /// How many slices of the environment have ended.
    fn slices(&self) -> u32
        requires { IsWhole self.now }
        ensures { result ≡ ended (progress self.now) };

    /// The first item that wasn't read, and how many times it stands there in a row; none where all were read.
    fn first(&self) -> Option<(ItemView<'_>, u32)>
        requires { IsWhole self.now }
        ensures { IsFirst (unread (progress self.now)) result };

    /// Reads so many items, of which as many are unread at least.
    fn skip(&mut self, count: u32)
        requires whole { IsWhole self.old }
        requires count { count ≤ length (unread (progress self.old)) }
        ensures read { progress self.new ≡ record (progress self.old) { read = (progress self.old).read + count } }
        ensures whole { IsWhole self.new };

    /// Reads all items.
    fn clear(&mut self)
        requires { IsWhole self.old }
        ensures read { progress self.new ≡ record (progress self.old) { read = length (told (progress self.old)) } }
        ensures whole { IsWhole self.new };

    /// Goes on by a tick, or by several in which no slice of the environment ends but in the last one, and tells its items
    /// in them. False where the run is over, with `MOST_RUN_TICKS` made or with an idle board; nothing changes then. Where
    /// memory is wanting the run is given up.
    fn pass(&mut self) -> Result<bool, OutOfMemory>
        requires { IsWhole self.old }
        ensures passed { IfOk result (λ on. Passed (progress self.old) (progress self.new) on) }
        ensures whole { OnOk result (IsWhole self.new) };
}
