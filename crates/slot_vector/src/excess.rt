//! What environments owe.
ghost use Rattle.std.specs.Prelude.{◌≡◌, ◌<◌, ◌≤◌, ◌+◌, replicate, slice_set};
ghost use Rattle.aegis_limits.specs.Limits.{excess_limit, environment_numbers};
ghost use Rattle.slot_vector.specs.Slices.{excess_of};

use aegis_limits::ENVIRONMENT_NUMBERS;
use std::marker::Model;

/// The excess of each environment by its number: the quanta that it ran past its slices and hasn't
/// forfeited yet, at most `EXCESS_LIMIT`, and one more for one that is to die. At first nobody has any.
#[derive(Drop)]
pub(crate) struct Excess {
    quanta: [u32; ENVIRONMENT_NUMBERS],
}

impl Model for Excess {
    ghost use Rattle.std.specs.Prelude.{◌≤◌, ◌+◌, All, List, ℕ};
    ghost use Rattle.aegis_limits.specs.Limits.{excess_limit};

    ghost Value = { List ℕ };

    ghost view = { λ x. x.quanta };

    ghost invariant = { λ x. All (λ quanta. quanta ≤ excess_limit + 1) x.quanta };
}

impl Excess {
    /// Nobody owes anything.
    pub(crate) fn new() -> Excess
        ensures { result ≡ replicate environment_numbers 0 }
    {
        Excess {
            quanta: [0; ENVIRONMENT_NUMBERS],
        }
    }

    /// The excess of an environment; past the last there is none.
    pub(crate) fn of(&self, env: u8) -> u32
        ensures excess { result ≡ excess_of self.now env }
        ensures most { result ≤ excess_limit + 1 }
    {
        match self.quanta.get(env as usize) {
            Some(quanta) => *quanta,
            None => 0,
        }
    }

    /// The environment's excess is this now.
    pub(crate) fn set(&mut self, env: u8, quanta: u32)
        requires number { env < environment_numbers }
        requires most { quanta ≤ excess_limit + 1 }
        ensures { self.new ≡ slice_set self.old env quanta }
    {
        self.quanta[env as usize] = quanta;
    }
}
