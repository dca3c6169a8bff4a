//! Who ran, by the ledger.
ghost use Rattle.runner_law.specs.RunnerLaw.{RunnersAreTold, SameRowsSameSteps, StatesAreTold, StepsAreTold, TurnsComeInRuns};

use call_verdicts::law_granted;
use ledger_law::{law_ledger, law_ledger_end, law_ledger_tells};
use run_model::{law_feed, law_next_turn, law_time, law_turn};
use sharing_law::law_given_licence;
use turn_law::law_turns_come;

/// The rows that are earlier than a tick are those of the ticks before it, whatever comes later.
pub fn law_states_are_told()
    ensures { StatesAreTold }
{
    law_granted();
    law_next_turn();
    law_turn();
    law_time();
    law_ledger();
}

/// The rows name the environment that makes the step of a tick.
pub fn law_runners_are_told()
    ensures { RunnersAreTold }
{
    law_granted();
    law_next_turn();
    law_turn();
    law_time();
    law_ledger();
    law_ledger_tells();
}

/// An environment makes a step in exactly the ticks for which the rows name it.
pub fn law_steps_are_told()
    ensures { StepsAreTold }
{
    law_feed();
    law_given_licence();
    law_runners_are_told();
}

/// Rows are all by which others move an environment's steps: in two runs with the same rows it makes a step in the same
/// ticks.
pub fn law_same_rows_same_steps()
    ensures { SameRowsSameSteps }
{
    law_steps_are_told();
}

/// In every run, whoever holds a slot makes a step within ten quanta times the slots, and as often again as it owes quanta.
pub fn law_turns_come_in_runs()
    ensures { TurnsComeInRuns }
{
    law_granted();
    law_next_turn();
    law_turn();
    law_time();
    law_ledger();
    law_ledger_end();
    law_ledger_tells();
    law_states_are_told();
    law_steps_are_told();
    law_turns_come();
}
