//! What two runs show of an environment, and what a comparison of them answers.
ghost use Rattle.twin_law.specs.TwinAnswers.{TwinNamesFirst, TwinOfQuiet, TwinShowsQuiet};
ghost use Rattle.twin_law.specs.TwoRuns.{QuietIsLeftAlike, TwoRunsLeaveSame, TwoRunsShowSame};

use feed_log::law_views;
use limits_law::law_items_are_fit;
use quiet_law::{law_quiet, law_quiet_each_tick, law_quiet_text};
use run_model::law_alone;
use sharing_law::{law_agreement, law_pages_end};

/// An environment that is given the same in two runs, and runs in both or in neither, is shown the same by both, but
/// for the line of its excess: whatever else the systems are, the number of their pages too. A quiet one is given the
/// same where it doesn't run and as many of its slices have ended.
pub fn law_two_runs()
    ensures left { TwoRunsLeaveSame }
    ensures shown { TwoRunsShowSame }
    ensures quiet { QuietIsLeftAlike }
{
    law_agreement();
    law_pages_end();
    law_alone();
    law_quiet_each_tick();
}

/// What is answered of two runs in which an environment is quiet names no difference: it is that a side doesn't come to
/// the end of slice n, or the fingerprint of what either run shows of the environment there.
pub fn law_twin_of_quiet()
    ensures answer { TwinOfQuiet }
    ensures shown { TwinShowsQuiet }
{
    law_quiet();
    law_quiet_text();
}

/// The place that is named as a difference of two feeds is the first one: below it the items are shown alike, and are the
/// same in runs of accepted images.
pub fn law_first_difference()
    ensures { TwinNamesFirst }
{
    law_items_are_fit();
    law_views();
}
