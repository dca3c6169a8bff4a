//! A run that has ended.
ghost use Rattle.std.specs.Prelude.{◌≡◌, IfOk, true};
ghost use Rattle.external_event.specs.Order.{are_in_order};
ghost use Rattle.board_model.specs.Showing.{world_of};
ghost use Rattle.run_model.specs.Run.{end_of_run, world_after};
ghost use Rattle.tlb_course.specs.Course.{cache_after};
ghost use Rattle.aegis_command.specs.SystemDue.{meant};

use crate::ranged::{LongTicks, Ticks};
use aegis_calls::Board;
use aegis_limits::OutOfMemory;
use aegis_tick::Course;
use boot_image::Image;
use external_event::Event;
use kernel_journal::RunEnd;
use std::alloc::Global;

/// A run after its last tick.
#[derive(Drop)]
pub(crate) struct EndedRun {
    /// The board.
    pub board: Board,
    /// How it ended.
    pub end: RunEnd,
}

/// The run of an image for so many ticks, in which these events happen.
pub(crate) fn ended_run(
    alloc: Global,
    image: &Image<'_>,
    events: &[Event],
    ticks: Ticks,
) -> Result<EndedRun, OutOfMemory>
    requires { are_in_order 0 events.now ≡ true }
    ensures world { IfOk result (λ run. world_of run.board ≡ world_after (meant image.now events.now) ticks.number) }
    ensures tlb { IfOk result (λ run. run.board.tlb ≡ cache_after (meant image.now events.now) ticks.number) }
    ensures end { IfOk result (λ run. run.end ≡ end_of_run (world_after (meant image.now events.now) ticks.number) ticks.number) }
{
    let mut course = Course::boot(alloc, image, events)?;
    let end = course.run(ticks.number)?;
    Ok(EndedRun {
        board: course.board,
        end,
    })
}

/// The run of an image for so many ticks as a long one may have, and so many rows.
pub(crate) fn ended_long_run(
    alloc: Global,
    image: &Image<'_>,
    events: &[Event],
    ticks: LongTicks,
) -> Result<EndedRun, OutOfMemory>
    requires { are_in_order 0 events.now ≡ true }
    ensures world { IfOk result (λ run. world_of run.board ≡ world_after (meant image.now events.now) ticks.number) }
    ensures tlb { IfOk result (λ run. run.board.tlb ≡ cache_after (meant image.now events.now) ticks.number) }
    ensures end { IfOk result (λ run. run.end ≡ end_of_run (world_after (meant image.now events.now) ticks.number) ticks.number) }
{
    let mut long = Course::boot(alloc, image, events)?;
    let end = long.run_long(ticks.number)?;
    Ok(EndedRun {
        board: long.board,
        end,
    })
}
