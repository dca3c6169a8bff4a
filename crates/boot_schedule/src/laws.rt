//! What holds of every schedule.
ghost use Rattle.std.specs.Prelude.{◌≡◌, ◌≤◌, ℕ, List, None, length, true};
ghost use Rattle.external_event.specs.Order.{are_in_order};
ghost use Rattle.boot_schedule.specs.Schedule.{most_events, schedule_fault, events_of};

/// Law: the times of a schedule that has no fault don't fall, and it has at most 65,536 events.
pub fn law_in_order()
    ensures order { (text : List ℕ) → schedule_fault text ≡ None → are_in_order 0 (events_of text) ≡ true }
    ensures most { (text : List ℕ) → schedule_fault text ≡ None → length (events_of text) ≤ most_events }
{}
