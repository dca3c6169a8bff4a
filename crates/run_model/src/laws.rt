//! The laws of the model.
ghost use Rattle.std.specs.Prelude.{◌<◌};
ghost use Rattle.world_model.specs.Book.{Book, next_held_turn};
ghost use Rattle.run_model.specs.NextTurn.{IsNextTurn};
ghost use Rattle.run_model.specs.Excess.{BalanceHolds, BootsAccounted, LedgersAreLawful, TicksKeepAccounts, TurnsGoByRule};
ghost use Rattle.run_model.specs.Licensed.{FeedIsLicensed, GivenIsLicensed};
ghost use Rattle.run_model.specs.Handlers.{HandlersAreVerified};
ghost use Rattle.run_model.specs.Live.{StoresAreLive};
ghost use Rattle.run_model.specs.Slices.{SlicesEndLast, SlicesEndStopped};
ghost use Rattle.run_model.specs.Run.{InTurnIsEach, IsFoldOfFeed, MomentsAreInOrder, PhasesGive, TimeIsTick};

use call_verdicts::{law_again, law_granted};
use revocation_book::law_takable;

/// Phases in turn are the phases one after another, each in the world that the one before it leaves.
pub fn law_in_turn()
    ensures { InTurnIsEach }
{}

/// The moments of a tick come in their order: the deadlines are served once the events are over, the turn is taken after
/// that, the step is made after the turn, the timer counts after the step, and where the board isn't idle the next tick
/// begins after the timer, and each environment is given what events, takings, turn, step and timer give to it, in this
/// order.
pub fn law_moments()
    ensures { MomentsAreInOrder }
{}

/// Each environment is what it makes alone of what it is given: for every image and schedule, number of ticks and
/// environment, all that it has, as its registers, pages, console, claims and sent packets, is the fold of its feed.
pub fn law_alone()
    ensures { IsFoldOfFeed }
{}

/// Every handler that a claim of an environment has at some moment of a run is verified: it has no bad word.
pub fn law_handlers()
    ensures { HandlersAreVerified }
{}

/// A world that begins at time 0 is at its tick's time as long as it isn't idle.
pub fn law_time()
    ensures { TimeIsTick }
{}

/// The next turn is that of the first held slot after the cursor, all around, the cursor's own slot
/// last. It is nobody's exactly where every slot is empty.
pub fn law_next_turn()
    ensures { (b : Book) → b.cursor < b.slot_count → IsNextTurn b (next_held_turn b) }
{}

/// A turn goes by the rule of excess: who runs in it owes nothing, every slot that is passed over is empty or was
/// forfeited, and each forfeit lowers one excess by one.
pub fn law_turn()
    ensures { TurnsGoByRule }
{}

/// What an environment that lives ran past its slices it has forfeited, or still owes.
pub fn law_balance()
    ensures { BalanceHolds }
{
    law_granted();
}

/// Every row of every ledger is lawful after those before it, by the rule of excess.
pub fn law_rows_are_lawful()
    ensures { LedgersAreLawful }
{
    law_granted();
}

/// The accounts of the world that an image boots are in order, for every image.
pub fn law_boot_accounts()
    ensures { BootsAccounted }
{}

/// Ticks keep the accounts of every world in which they are in order.
pub fn law_accounts()
    ensures { TicksKeepAccounts }
{
    law_granted();
}

/// In a tick each environment is given what the phases of the tick give, one after another.
pub fn law_feed()
    ensures { PhasesGive }
{}

/// In so many ticks as end a slice of an environment a slice of it ends in the last, and behind them it doesn't run.
pub fn law_slices()
    ensures stopped { SlicesEndStopped }
    ensures last { SlicesEndLast }
{}

/// Every item of every feed has its licence where it is given, at boot or in its phase of its tick, if each store to a page
/// that isn't guaranteed goes through a live binding. That each does is a law of `sharing_law`.
pub fn law_licence_by_stores()
    ensures phases { StoresAreLive → GivenIsLicensed }
    ensures feed { StoresAreLive → FeedIsLicensed }
{
    law_granted();
    law_again();
    law_takable();
}
