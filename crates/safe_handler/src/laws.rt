//! What holds of the runs of handlers.
ghost use Rattle.handler_rules.specs.Laws.{HandlersEnd, RunsKeepLimits};

use handler_rules::law_first_bad;
use mips_step::steps_are_sound;

/// Law: a verified handler ends in as many instructions as it has words.
pub fn law_handlers_end()
    ensures { HandlersEnd }
{
    law_first_bad();
}

/// Law: a run keeps the size of the ring page, and makes at most four replies of 14 to 1,514 bytes.
pub fn law_runs_keep_limits()
    ensures { RunsKeepLimits }
{
    steps_are_sound();
}
