//! The row that is written at random.
ghost use Rattle.std.specs.Prelude.{◌≡◌, ◌<◌, ◌≤◌};
ghost use Rattle.r3k_cp0.specs.Random.{fallen, fallen_times, first_random, random_end};

use std::marker::Model;

/// The first row that Random names; the rows below it are the kernel's own.
const FIRST_RANDOM: u8 = 8;

/// The last row that Random names.
const LAST_RANDOM: u8 = 63;

/// How many rows it names.
const RANDOM_ROWS: u64 = (LAST_RANDOM - FIRST_RANDOM + 1) as u64;

/// From this count on whole rounds of falls are left out, so that no count is too large.
const MANY_FALLS: u64 = 1 << 63;

/// The register Random: the row, from 8 to 63, that TLBWR writes. Each attempted step lowers it by one, from 8 back to 63.
#[derive(Drop)]
pub struct Random {
    /// How often it fell from the last row, but for whole rounds: steps are many and those who ask for the row are few, so
    /// that the division is left to them.
    falls: u64,
}

impl Model for Random {
    ghost use Rattle.std.specs.Prelude.{ℕ, ◌-◌};
    ghost use Rattle.r3k_cp0.specs.Random.{fallen_times, random_end};

    ghost Value = { ℕ };

    ghost view = { λ r. fallen_times (random_end - 1) r.falls };
}

impl Random {
    /// The last row.
    pub fn last() -> Random
        ensures { result ≡ 63 }
    {
        Random { falls: 0 }
    }

    /// The row that it names.
    #[tactic(auto, using(crate::proofs::Falls::row_of_falls))]
    pub fn row(&self) -> u8
        ensures row { result ≡ self.now }
        ensures least { first_random ≤ result }
        ensures within { result < random_end }
    {
        LAST_RANDOM - (self.falls % RANDOM_ROWS) as u8
    }

    /// After one attempted step.
    pub fn fall(&mut self)
        ensures { self.new ≡ fallen self.old }
    {
        self.fall_times(1);
    }

    /// After so many attempted steps.
    #[tactic(auto, using(crate::proofs::Falls::falls_on, crate::proofs::Falls::whole_rounds))]
    #[inline(always)]
    pub fn fall_times(&mut self, times: u32)
        ensures { self.new ≡ fallen_times self.old times }
    {
        if self.falls >= MANY_FALLS {
            self.falls %= RANDOM_ROWS;
        }
        self.falls += u64::from(times);
    }
}
