//! The law of traces.
ghost use Rattle.trace_law.specs.TraceLaw.{TraceIsFeed};

use aegis_tick::law_halves;
use runner_law::{law_runners_are_told, law_steps_are_told};

/// A trace of an environment has a line for exactly the ticks in which a step is among what it is given.
pub fn law_trace_is_feed()
    ensures { TraceIsFeed }
{
    law_halves();
    law_runners_are_told();
    law_steps_are_told();
}
