//! The events that are to come.
ghost use Rattle.std.specs.Prelude.{◌≡◌, ◌-◌, ◌==◌, drop, length, min};
ghost use Rattle.std.specs.List.{prefix_len};
ghost use Rattle.external_event.specs.EventValue.{EventValue};
ghost use Rattle.aegis_tick.specs.Agenda.{first_at, next_time_of};

use external_event::Event;
use std::marker::Model;

/// How many of these events are of this time, before the first of another.
fn count_at(events: &[Event], time: u32) -> usize
    ensures { result ≡ prefix_len (λ (e : EventValue). e.time == time) events.now }
{
    events.iter().take_while(|event| event.time == time).count()
}

/// The time of the first of these events, or a time after every tick, if there is none.
fn next_time(events: &[Event]) -> u32
    ensures { result ≡ next_time_of events.now }
{
    match events.first() {
        Some(event) => event.time,
        None => u32::MAX,
    }
}

/// The events that are to come in a run, in their order, and when the first of them does.
#[derive(Drop)]
pub struct Agenda<'e> {
    coming: &'e [Event],
    soon: u32,
}

impl<'e> Model for Agenda<'e> {
    ghost use Rattle.std.specs.Prelude.{◌≡◌, List};
    ghost use Rattle.external_event.specs.EventValue.{EventValue};
    ghost use Rattle.aegis_tick.specs.Agenda.{next_time_of};

    ghost Value = { List EventValue };

    ghost view = { λ a. a.coming.now };

    ghost invariant = { λ a. a.soon ≡ next_time_of a.coming.now };
}

impl<'e> Agenda<'e> {
    /// The agenda of these events.
    pub fn of(events: &'e [Event]) -> Agenda<'e>
        ensures { result ≡ events.now }
    {
        Agenda {
            coming: events,
            soon: next_time(events),
        }
    }

    /// Takes off the first events that are of this time. A time at which nothing happens costs one comparison.
    #[inline(always)]
    pub fn due(&mut self, time: u32) -> &'e [Event]
        ensures now { result.now ≡ first_at time self.old }
        ensures left { self.new ≡ drop (length result.now) self.old }
    {
        if time != self.soon {
            return &[];
        }
        let (now, later) = self.coming.split_at(count_at(self.coming, time));
        self.coming = later;
        self.soon = next_time(later);
        now
    }

    /// How many ticks from a time on come before the first event: at most so many.
    #[inline(always)]
    pub fn ticks_before(&self, time: u32, most: u32) -> u32
        ensures { result ≡ min most (next_time_of self.now - time) }
    {
        most.min(self.soon.saturating_sub(time))
    }
}
