//! A run of a board, told.
ghost use Rattle.std.specs.Prelude.{◌≡◌, IfOk, true};
ghost use Rattle.external_event.specs.Order.{are_in_order};
ghost use Rattle.world_model.specs.Event.{schedule_of};
ghost use Rattle.feed_log.specs.Progress.{at_boot};

use aegis_calls::Board;
use aegis_limits::{MOST_RUN_TICKS, OutOfMemory};
use aegis_tick::Course;
use boot_image::Image;
use external_event::Event;
use feed_boot::tell_record;
use feed_log::{FeedLog, ItemView, ToldRun, law_views};
use std::alloc::Global;
use world_model::WorldView;

/// A run of a board in which what one environment is given is told: its record at boot, and then what each tick brings.
#[derive(Drop)]
pub struct BoardRun<'i, 'b, 'e> {
    pub(crate) course: Course<'i, 'b, 'e>,
    pub(crate) watched: u8,
    /// The items that weren't read.
    pub(crate) log: FeedLog,
    /// The items of the tick under way.
    pub(crate) tick: FeedLog,
    /// How many slices of the environment have ended.
    pub(crate) ended: u32,
}

impl<'i, 'b, 'e> BoardRun<'i, 'b, 'e> {
    ghost use Rattle.feed_run.specs.Whole.{IsWholeRun, progress_of};

    /// The run that an image and a schedule boot, of which is told what the environment of this number is given. No tick is
    /// made yet.
    pub fn boot(
        alloc: Global,
        image: &'i Image<'b>,
        events: &'e [Event],
        watched: u8,
    ) -> Result<BoardRun<'i, 'b, 'e>, OutOfMemory>
        requires order { are_in_order 0 events.now ≡ true }
        ensures begins { IfOk result (λ r. progress_of r ≡ at_boot (record { image = image.now; schedule = schedule_of events.now }) watched) }
        ensures whole { IfOk result IsWholeRun }
    {
        let course = Course::boot(alloc, image, events)?;
        let mut log = FeedLog::new(alloc);
        tell_record(alloc, image, &course.board, &mut log, watched)?;
        Ok(BoardRun {
            course,
            watched,
            log,
            tick: FeedLog::new(alloc),
            ended: 0,
        })
    }
}

impl BoardRun<'_, '_, '_> {
    /// Gives back what items hold that were read, where all were.
    fn drop_read(&mut self)
        ensures { self.new ≡ self.old }
    {
        if self.log.is_empty() {
            self.log.clear();
        }
    }
}

impl ToldRun for BoardRun<'_, '_, '_> {
    ghost use Rattle.feed_run.specs.Whole.{IsWholeRun, progress_of};

    type View = Board;

    ghost progress = { progress_of };

    ghost IsWhole = { IsWholeRun };

    fn view(&self) -> &Board {
        &self.course.board
    }

    fn slices(&self) -> u32 {
        self.ended
    }

    fn first(&self) -> Option<(ItemView<'_>, u32)> {
        law_views();
        self.log.first()
    }

    fn skip(&mut self, count: u32) {
        self.log.skip(count);
    }

    fn clear(&mut self) {
        self.log.clear();
    }

    fn pass(&mut self) -> Result<bool, OutOfMemory> {
        let board = &self.course.board;
        if board.idle() || board.time() == MOST_RUN_TICKS {
            return Ok(false);
        }
        self.drop_read();
        if !self.make_tick()? {
            self.make_plain_ticks()?;
        }
        Ok(true)
    }
}
