//! What `trace IMAGE SCHEDULE TICKS ENV` writes, and with `FROM` behind it.
ghost use Rattle.std.specs.Prelude.{◌≡◌, ◌≤◌, option_map};
ghost use Rattle.aegis_limits.specs.Limits.{most_ticks};
ghost use Rattle.aegis_command.specs.Ranges.{env_of};

use crate::ranged::LongTicks;
use crate::system_command::SystemText;
use aegis_limits::{ENVIRONMENT_NUMBERS, OutOfMemory};
use boot_image::Image;
use external_event::Event;
use line_text::decimal;
use std::alloc::Global;
use trace_view::{MOST_TRACED_TICKS, trace};

/// `TICKS ENV FROM`: the steps of an environment in a run of an image for so many ticks, from one of them on.
#[derive(Clone, Copy)]
pub struct Trace {
    /// The tick from which on there are lines.
    pub from: u32,
    /// How many ticks to run.
    pub ticks: u32,
    /// The number of the environment, which the image may lack.
    pub env: u8,
    ghost within: { from ≤ ticks },
    ghost most: { ticks ≤ most_ticks },
}

/// The number of an environment that a word gives, if it is one: below `ENVIRONMENT_NUMBERS`.
pub(crate) fn parse_env(word: &str) -> Option<u8>
    ensures { result ≡ env_of word.now }
{
    let env = decimal(word.as_bytes())?;
    if (env as usize) < ENVIRONMENT_NUMBERS {
        Some(env as u8)
    } else {
        None
    }
}

impl Trace {
    ghost use Rattle.aegis_command.specs.TraceEnv.{trace_from, trace_writing};

    /// The trace from a tick on that two words ask for: not from after the last tick on, and of not too many ticks.
    fn parse_from(from: u32, ticks: &str, env: &str) -> Option<Trace>
        ensures { option_map trace_writing result ≡ trace_from from ticks.now env.now }
    {
        let ticks = LongTicks::parse(ticks)?;
        let env = parse_env(env)?;
        if from <= ticks.number && ticks.number - from <= MOST_TRACED_TICKS {
            Some(Trace {
                from,
                ticks: ticks.number,
                env,
            })
        } else {
            None
        }
    }
}

impl SystemText for Trace {
    ghost use Rattle.aegis_command.specs.TraceEnv.{trace_asked, trace_writing};

    ghost writing = { trace_writing };

    ghost asked = { trace_asked };

    fn parse(words: &[String]) -> Option<Trace> {
        match words {
            [ticks, env] => Trace::parse_from(0, ticks.as_str(), env.as_str()),
            [ticks, env, from] => {
                let from = LongTicks::parse(from.as_str())?;
                Trace::parse_from(from.number, ticks.as_str(), env.as_str())
            }
            _ => None,
        }
    }

    fn write(
        &self,
        alloc: Global,
        image: &Image<'_>,
        events: &[Event],
    ) -> Result<Vec<u8>, OutOfMemory> {
        trace(alloc, image, events, self.from, self.ticks, self.env)
    }
}
