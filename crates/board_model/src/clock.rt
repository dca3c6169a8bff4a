//! The clock.
ghost use Rattle.std.specs.Prelude.{◌≡◌, ◌≤◌, ◌+◌};
ghost use Rattle.aegis_limits.specs.Limits.{most_ticks};

use std::marker::Model;

/// Ticks since the boot. Time ends at `MOST_TICKS`.
#[derive(Drop)]
pub struct Clock {
    ticks: u32,
}

impl Model for Clock {
    ghost use Rattle.std.specs.Prelude.{ℕ, ◌≤◌};
    ghost use Rattle.aegis_limits.specs.Limits.{most_ticks};

    ghost Value = { ℕ };

    ghost view = { λ c. c.ticks };

    ghost invariant = { λ c. c.ticks ≤ most_ticks };
}

impl Clock {
    /// A clock at its first tick.
    pub fn new() -> Clock
        ensures { result ≡ 0 }
    {
        Clock { ticks: 0 }
    }

    /// The ticks so far, at most `MOST_TICKS`.
    pub fn ticks(&self) -> u32
        ensures ticks { result ≡ self.now }
        ensures most { result ≤ most_ticks }
    {
        self.ticks
    }

    /// So many ticks pass.
    pub fn pass(&mut self, ticks: u32)
        requires { self.old + ticks ≤ most_ticks }
        ensures { self.new ≡ self.old + ticks }
    {
        self.ticks += ticks;
    }
}
