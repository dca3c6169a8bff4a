//! Schedules are within their limits.
ghost use Rattle.schedule_law.specs.Limits.{EventsAreWithin, SaidIsWithinLimits, SchedulesAreWithin};

/// Every event that the lines of a schedule say is within its limits, and so is all that happens in a run by a schedule.
/// This is what the laws of reports, of whole pages and of packets presuppose of schedules.
pub fn law_schedules()
    ensures events { EventsAreWithin }
    ensures ticks { SchedulesAreWithin }
    ensures each { SaidIsWithinLimits }
{}
