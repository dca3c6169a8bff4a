//! The course of a run, tick by tick.
ghost use Rattle.std.specs.Prelude.{◌≡◌, ◌≤◌, ◌<◌, ◌+◌, ◌-◌, ◌*◌, ◌==◌, drop, false, length, true, IfOk, IsOk, None, OnOk, OnErr};
ghost use Rattle.std.specs.List.{take_while};
ghost use Rattle.aegis_limits.specs.Limits.{most_ticks};
ghost use Rattle.boot_image.specs.ImageValue.{guaranteed_mappings};
ghost use Rattle.board_model.specs.Showing.{world_of};
ghost use Rattle.board_model.specs.Stretch.{AreSteady, IsQuiet};
ghost use Rattle.board_model.specs.Ticks.{IsSameTick};
ghost use Rattle.external_event.specs.Order.{are_in_order};
ghost use Rattle.world_model.specs.Book.{is_idle_book};
ghost use Rattle.world_model.specs.Event.{schedule_of};
ghost use Rattle.run_model.specs.Boot.{boot_world};
ghost use Rattle.run_model.specs.Excess.{IsAccounted};
ghost use Rattle.run_model.specs.Run.{end_of_run, happens_in, world_after};
ghost use Rattle.tlb_course.specs.Course.{cache_after};
ghost use Rattle.aegis_tick.specs.Agenda.{AreComing, occurrences};
ghost use Rattle.aegis_tick.specs.Halves.{second_half};
ghost use Rattle.aegis_tick.specs.Course.{IsCutOff, IsCutShort};

use crate::agenda::Agenda;
use crate::booting::boot;
use crate::halves::{begin_with, finish_tick};
use crate::laws::{law_agenda, law_halves, law_idle};
use crate::running::{TICK_ROWS, tick_next};
use aegis_calls::Board;
use aegis_limits::OutOfMemory;
use boot_image::Image;
use external_event::Event;
use kernel_journal::RunEnd;
use r3k_machine::Entry;
use run_model::law_accounts;
use std::alloc::Global;
use tlb_course::law_further;
use world_model::WorldView;

/// The rows of the ledger that a long run may have.
pub const MOST_LONG_ROWS: usize = 16_777_216;

/// After how many ticks a long run looks at its rows again.
const TICKS_BETWEEN_LOOKS: u32 = 65_536;

/// A run: its board, the events that are to come, and by what the runner enters the kernel in the next tick, where that is
/// known.
#[derive(Drop)]
pub struct Course<'i, 'b, 'e> {
    /// The image that was booted.
    pub image: &'i Image<'b>,
    /// All events of the run, in their order.
    pub events: &'e [Event],
    /// The board after the ticks so far.
    pub board: Board,
    /// The events that are to come.
    pub agenda: Agenda<'e>,
    /// By what the runner enters the kernel in the next tick; none where that isn't known.
    pub entry: Option<Entry>,
}

/// How a run that may have had so many ticks ended: at the limit where time reached it, else because the board is idle.
pub fn end_of_run(board: &Board, ticks: u32) -> RunEnd
    ensures { result ≡ end_of_run (world_of board.now) ticks }
{
    if board.time() == ticks {
        RunEnd::Limit
    } else {
        RunEnd::Idle
    }
}

impl<'i, 'b, 'e> Course<'i, 'b, 'e> {
    ghost use Rattle.aegis_tick.specs.OnCourse.{GlidesAsFar, HasRowsUpTo, IsCached, IsMidway, IsOn, IsStoppedInTick, IsSureOfTick, TookFewRows, system_of};

    /// The run that an image and a schedule boot (`docs/KERNEL.md`, "Boot"). No tick is made yet, and nobody owes anything.
    pub fn boot(
        alloc: Global,
        image: &'i Image<'b>,
        events: &'e [Event],
    ) -> Result<Course<'i, 'b, 'e>, OutOfMemory>
        requires { are_in_order 0 events.now ≡ true }
        ensures system { IfOk result (λ c. system_of c ≡ record { image = image.now; schedule = schedule_of events.now }) }
        ensures on { IfOk result IsOn }
        ensures cached { IfOk result IsCached }
        ensures time { IfOk result (λ c. c.board.time ≡ 0) }
        ensures balance { IfOk result (λ c. IsAccounted (world_of c.board)) }
        ensures all { IfOk result (λ c. c.agenda ≡ events.now) }
    {
        let board = boot(alloc, image)?;
        Ok(Course {
            image,
            events,
            board,
            agenda: Agenda::of(events),
            entry: None,
        })
    }

    /// Takes the events of the next tick off the agenda, for who makes it phase by phase.
    #[inline(always)]
    pub fn due(&mut self) -> &'e [Event]
        requires { IsOn self.old }
        ensures now { occurrences result.now ≡ happens_in (system_of self.old).schedule (world_of self.old.board) }
        ensures coming { AreComing self.old.events.now (self.old.board.time + 1) self.new.agenda }
        ensures same { self.new ≡ record self.old { agenda = self.new.agenda; entry = None } }
        ensures fewer { length self.old.agenda ≡ length self.new.agenda + length result.now }
    {
        law_agenda();
        self.entry = None;
        self.agenda.due(self.board.time())
    }

    /// The next tick, with what happens in it. After a refusal some first events of it have happened. Where the rows of its
    /// events and of the tick are spare it isn't refused.
    #[inline(always)]
    pub fn tick(&mut self) -> Result<(), OutOfMemory>
        requires on { IsOn self.old }
        requires busy { is_idle_book (world_of self.old.board).book ≡ false }
        requires time { self.old.board.time < most_ticks }
        ensures on { OnOk result (IsOn self.new) }
        ensures cached { OnOk result (IsCached self.old → IsCached self.new) }
        ensures time { OnOk result (self.new.board.time ≡ self.old.board.time + 1) }
        ensures system { system_of self.new ≡ system_of self.old }
        ensures part { OnErr result (IsStoppedInTick self.old self.new) }
        ensures early { OnErr result (IsSameTick self.old.board self.new.board × (self.new.board.tlb ≡ self.old.board.tlb)) }
        ensures fewer { length self.new.agenda ≤ length self.old.agenda }
        ensures sure { IsSureOfTick self.old result self.new }
    {
        law_agenda();
        let entry = self.entry;
        self.entry = None;
        let now = self.agenda.due(self.board.time());
        tick_next(&mut self.board, now, entry)?;
        Ok(())
    }

    /// Plain ticks, at most that many: nothing happens in them but steps of the runner's that retire. There may be none. They
    /// go on up to the next event, unless the runner's next step isn't one. The result is how many there were.
    #[inline(always)]
    pub fn glide(&mut self, most: u32) -> u32
        requires on { IsOn self.old }
        requires limit { self.old.board.time + most ≤ most_ticks }
        ensures on { IsOn self.new }
        ensures cached { IsCached self.old → IsCached self.new }
        ensures time { self.new.board.time ≡ self.old.board.time + result }
        ensures most { result ≤ most }
        ensures system { system_of self.new ≡ system_of self.old }
        ensures quiet { IsQuiet (system_of self.old).schedule self.old.board.time (self.old.board.time + result) }
        ensures steady { AreSteady self.old.board (system_of self.old).schedule result }
        ensures stop { GlidesAsFar self.old self.new most result }
        ensures agenda { self.new.agenda ≡ self.old.agenda }
        ensures ledger { self.new.board.ledger ≡ self.old.board.ledger }
    {
        law_agenda();
        law_further();
        let quiet = self.agenda.ticks_before(self.board.time(), most);
        let stretch = self.board.stretch(quiet);
        self.entry = stretch.entry;
        stretch.made
    }

    /// The first half of the next tick, up to the runner's step, with what happens in it. After a refusal some first events of
    /// it have happened. Where the rows of its events and of the tick are spare it isn't refused.
    pub fn begin(&mut self) -> Result<(), OutOfMemory>
        requires on { IsOn self.old }
        requires busy { is_idle_book (world_of self.old.board).book ≡ false }
        requires time { self.old.board.time < most_ticks }
        ensures midway { OnOk result (IsMidway self.new) }
        ensures time { OnOk result (self.new.board.time ≡ self.old.board.time) }
        ensures system { system_of self.new ≡ system_of self.old }
        ensures part { OnErr result (IsStoppedInTick self.old self.new) }
        ensures sure { TICK_ROWS * (length self.old.agenda - length self.new.agenda + 1) ≤ self.old.board.ledger.spare → IsOk result }
    {
        law_agenda();
        self.entry = None;
        let now = self.agenda.due(self.board.time());
        begin_with(&mut self.board, now)?;
        Ok(())
    }

    /// The second half: the runner's step with its call or death, and the timer.
    pub fn finish(&mut self)
        requires { IsMidway self.old }
        ensures world { world_of self.new.board ≡ second_half (world_of self.old.board) }
        ensures on { IsOn self.new }
        ensures time { self.new.board.time ≡ self.old.board.time + 1 }
        ensures system { system_of self.new ≡ system_of self.old }
    {
        law_halves();
        finish_tick(&mut self.board);
    }

    /// Runs on until so many ticks are made in all, in which the events happen, each at the beginning of the tick of its
    /// time. An idle board stays as it is, and no event happens on it. The run ends at the limit exactly where the time
    /// reached it, else because the board is idle; it may go on to a later limit. After a refusal the board is that of a
    /// whole number of ticks, and of some first events of the next. What environments ran past their slices by the ledger,
    /// they forfeited by it or still owe. Where `TICK_ROWS` rows are spare for each event and each tick it takes no memory
    /// and isn't refused.
    pub fn run(&mut self, ticks: u32) -> Result<RunEnd, OutOfMemory>
        requires on { IsOn self.old }
        requires cached { IsCached self.old }
        requires within { self.old.board.time ≤ ticks }
        requires limit { ticks ≤ most_ticks }
        ensures on { OnOk result (IsOn self.new) }
        ensures cached { OnOk result (IsCached self.new) }
        ensures reached { OnOk result (self.new.board.time ≤ ticks) }
        ensures system { system_of self.new ≡ system_of self.old }
        ensures world { OnOk result (world_of self.new.board ≡ world_after (system_of self.old) ticks) }
        ensures tlb { OnOk result (self.new.board.tlb ≡ cache_after (system_of self.old) ticks) }
        ensures idle { OnOk result (self.new.board.time < ticks → is_idle_book (world_of self.new.board).book ≡ true) }
        ensures end { IfOk result (λ end. end ≡ end_of_run (world_of self.new.board) ticks) }
        ensures cut { OnErr result (IsCutOff (system_of self.old) ticks (world_of self.new.board)) }
        ensures cut_tlb { OnErr result (self.new.board.tlb ≡ cache_after (system_of self.old) self.new.board.time) }
        ensures balance { IsAccounted (boot_world self.old.image.now) → IsAccounted (world_of self.new.board) }
        ensures sure { TICK_ROWS * (length self.old.agenda + (ticks - self.old.board.time)) ≤ self.old.board.ledger.spare → IsOk result }
        ensures took { OnOk result (TookFewRows self.old self.new) }
    {
        law_accounts();
        law_idle();
        while self.board.time() < ticks && !self.board.idle() {
            self.tick()?;
            let left = ticks - self.board.time();
            self.glide(left);
        }
        Ok(end_of_run(&self.board, ticks))
    }

    /// Runs on up to a look at the ledger, and gives up where it then has more than `MOST_LONG_ROWS` rows.
    fn run_to_look(&mut self, look: u32) -> Result<(), OutOfMemory>
        requires on { IsOn self.old }
        requires cached { IsCached self.old }
        requires within { self.old.board.time ≤ look }
        requires limit { look ≤ most_ticks }
        ensures on { OnOk result (IsOn self.new) }
        ensures cached { OnOk result (IsCached self.new) }
        ensures reached { OnOk result (self.new.board.time ≤ look) }
        ensures system { system_of self.new ≡ system_of self.old }
        ensures cut { OnErr result (IsCutShort (system_of self.old) look (world_of self.new.board)) }
        ensures sure { HasRowsUpTo self.old look → IsOk result }
        ensures took { OnOk result (TookFewRows self.old self.new) }
    {
        self.run(look)?;
        if self.board.journal().len() > MOST_LONG_ROWS {
            return Err(OutOfMemory);
        }
        Ok(())
    }

    /// Runs on as `run` does, but gives up once the ledger has more than `MOST_LONG_ROWS` rows. It looks at them now and
    /// then, so there may be some more. Where `TICK_ROWS` rows are spare for each event and each tick, and the ledger has at
    /// most `MOST_LONG_ROWS` rows at the end, it isn't refused.
    pub fn run_long(&mut self, ticks: u32) -> Result<RunEnd, OutOfMemory>
        requires on { IsOn self.old }
        requires cached { IsCached self.old }
        requires within { self.old.board.time ≤ ticks }
        requires limit { ticks ≤ most_ticks }
        ensures on { OnOk result (IsOn self.new) }
        ensures cached { OnOk result (IsCached self.new) }
        ensures reached { OnOk result (self.new.board.time ≤ ticks) }
        ensures system { system_of self.new ≡ system_of self.old }
        ensures world { OnOk result (world_of self.new.board ≡ world_after (system_of self.old) ticks) }
        ensures tlb { OnOk result (self.new.board.tlb ≡ cache_after (system_of self.old) ticks) }
        ensures idle { OnOk result (self.new.board.time < ticks → is_idle_book (world_of self.new.board).book ≡ true) }
        ensures end { IfOk result (λ end. end ≡ end_of_run (world_of self.new.board) ticks) }
        ensures cut { OnErr result (IsCutShort (system_of self.old) ticks (world_of self.new.board)) }
        ensures sure { HasRowsUpTo self.old ticks → IsOk result }
    {
        let mut until = self.board.time();
        while until < ticks {
            until = ticks.min(until + TICKS_BETWEEN_LOOKS);
            self.run_to_look(until)?;
        }
        self.run(ticks)
    }
}
