//! Numbers drawn from a seed.
ghost use Rattle.std.specs.Prelude.{◌≡◌};
ghost use Rattle.exos_text.specs.Draws.{next};

/// By what a number is multiplied in a draw.
const FACTOR: u32 = 1_664_525;

/// What is added then.
const SUMMAND: u32 = 1_013_904_223;

/// A linear congruential generator of numbers.
#[derive(Drop)]
pub(crate) struct Draws {
    /// The number that was drawn last, or the seed.
    pub(crate) number: u32,
}

impl Draws {
    /// Draws a number.
    pub(crate) fn draw(&mut self) -> u32
        ensures result { result ≡ next self.old.number }
        ensures number { self.new.number ≡ next self.old.number }
    {
        self.number = self.number.wrapping_mul(FACTOR).wrapping_add(SUMMAND);
        self.number
    }
}
