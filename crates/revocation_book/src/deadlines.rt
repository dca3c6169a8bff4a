//! What every environment is asked for, with the earliest deadline.
ghost use Rattle.std.specs.Prelude.{◌≡◌, ◌<◌, map, replicate, slice_index_or, slice_set, None};
ghost use Rattle.std.specs.List.{list_any};
ghost use Rattle.revocation_book.specs.Pending.{earliest_in, earliest_or_never, is_due, unless_due};
ghost use Rattle.aegis_limits.specs.Limits.{environment_numbers};

use crate::pending::unless_due;
use crate::revocation::Pending;
use aegis_limits::ENVIRONMENT_NUMBERS;
use std::marker::Model;

/// What each environment is asked for and hasn't given back.
#[derive(Drop)]
pub(crate) struct Deadlines {
    pending: [Option<Pending>; ENVIRONMENT_NUMBERS],
    /// The earliest deadline, if anything is pending.
    earliest: Option<u32>,
}

impl Model for Deadlines {
    ghost use Rattle.std.specs.Prelude.{◌≡◌, List, Option};
    ghost use Rattle.revocation_book.specs.declared.revocation.Pending.{Pending as Asked};
    ghost use Rattle.revocation_book.specs.Pending.{earliest_in};

    ghost Value = { List (Option Asked) };

    ghost view = { λ d. d.pending };

    ghost invariant = { λ d. d.earliest ≡ earliest_in d.pending };
}

impl Deadlines {
    /// Nothing is asked.
    pub(crate) fn new() -> Deadlines
        ensures { result ≡ replicate environment_numbers None }
    {
        Deadlines {
            pending: [None; ENVIRONMENT_NUMBERS],
            earliest: None,
        }
    }

    /// What an environment is asked for.
    pub(crate) fn of(&self, env: u8) -> Option<Pending>
        requires { env < environment_numbers }
        ensures { result ≡ slice_index_or self.now env None }
    {
        self.pending[env as usize]
    }

    /// An environment is asked for this.
    pub(crate) fn set(&mut self, env: u8, pending: Option<Pending>)
        requires { env < environment_numbers }
        ensures { self.new ≡ slice_set self.old env pending }
    {
        self.pending[env as usize] = pending;
        self.earliest = earliest(&self.pending);
    }

    /// Whether a deadline has come.
    pub(crate) fn is_due(&self, time: u32) -> bool
        ensures { result ≡ list_any (is_due time) self.now }
    {
        self.earliest.is_some_and(|deadline| deadline <= time)
    }

    /// The earliest deadline, or a time behind every tick.
    pub(crate) fn earliest_or_never(&self) -> u32
        ensures { result ≡ earliest_or_never self.now }
    {
        self.earliest.unwrap_or(u32::MAX)
    }

    /// The deadlines that have come are over.
    pub(crate) fn serve(&mut self, time: u32)
        ensures { self.new ≡ map (unless_due time) self.old }
    {
        serve(&mut self.pending, time);
        self.earliest = earliest(&self.pending);
    }
}

/// The earliest deadline, if anything is pending.
fn earliest(pending: &[Option<Pending>]) -> Option<u32>
    ensures { result ≡ earliest_in pending.now }
{
    pending
        .iter()
        .filter_map(|pending| pending.map(|pending| pending.deadline))
        .min()
}

/// The deadlines that have come are over.
fn serve(all: &mut [Option<Pending>], time: u32)
    ensures { all.new ≡ map (unless_due time) all.old }
{
    for pending in all.iter_mut() {
        *pending = unless_due(*pending, time);
    }
}
