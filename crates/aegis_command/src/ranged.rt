//! A number with a least and a most, as the words give it.
ghost use Rattle.std.specs.Prelude.{◌≡◌, ◌≤◌, option_map};

use aegis_limits::{LEAST_QUANTUM, MOST_QUANTUM, MOST_RUN_TICKS, MOST_TICKS};
use line_text::decimal;
use twin_run::MOST_COMPARED_SLICES;
use wire_model::{MOST_DELAY, MOST_WIRE_TICKS};

/// A number from `LEAST` to `MOST`.
#[derive(Clone, Copy)]
pub struct Ranged<const LEAST: u32, const MOST: u32> {
    /// The number.
    pub number: u32,
    ghost least: { LEAST ≤ number },
    ghost most: { number ≤ MOST },
}

/// The ticks of a run.
pub type Ticks = Ranged<0, MOST_RUN_TICKS>;

/// The ticks of a long run.
pub type LongTicks = Ranged<0, MOST_TICKS>;

/// The ticks of a run on a wire.
pub type WireTicks = Ranged<0, MOST_WIRE_TICKS>;

/// The ticks that a wire takes to carry a packet.
pub type Delay = Ranged<1, MOST_DELAY>;

/// The ticks of an image's quantum.
pub type Quantum = Ranged<LEAST_QUANTUM, MOST_QUANTUM>;

/// The slice up to whose end two runs are compared, by its number.
pub type LastSlice = Ranged<1, MOST_COMPARED_SLICES>;

impl<const LEAST: u32, const MOST: u32> Ranged<LEAST, MOST> {
    ghost use Rattle.aegis_command.specs.Ranges.{ranged_of};

    /// The number that a word gives, if it is in the range.
    pub fn parse(word: &str) -> Option<Ranged<LEAST, MOST>>
        ensures { option_map (λ ranged. ranged.number) result ≡ ranged_of LEAST MOST word.now }
    {
        let number = decimal(word.as_bytes())?;
        if LEAST <= number && number <= MOST {
            Some(Ranged { number })
        } else {
            None
        }
    }
}
