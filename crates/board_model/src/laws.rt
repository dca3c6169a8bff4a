//! The laws of what a board shows: each part of a tick is that part of the model's.
ghost use Rattle.board_model.specs.Laws.{AgainShowsModel, CallShowsModel, DeadlinesEndAsModel, DeathShowsModel, EventShowsModel, IdleShowsModel, RefusalShowsModel, ServingShowsModel, StepShowsModel, TakingShowsModel, TimerShowsModel, TurnShowsModel};
ghost use Rattle.board_model.specs.Stretch.{RunnersAreAtSteps, StretchIsSteady, StretchShowsModel};

use call_verdicts::{law_again, law_granted};
use filter_tree::law_numbered;
use revocation_book::law_takable;

/// A board is idle exactly where its world is.
pub fn law_idle()
    ensures { IdleShowsModel }
{}

/// What happens from outside is the model's.
pub fn law_happen()
    ensures { EventShowsModel }
{
    law_numbered();
}

/// What is taken from a sound board at deadlines that have come is what the model says.
pub fn law_serving()
    ensures { ServingShowsModel }
{
    law_takable();
}

/// A page that is taken from a sound board is taken as the model says, and deadlines that have come end as it says.
pub fn law_taking()
    ensures taken { TakingShowsModel }
    ensures over { DeadlinesEndAsModel }
{}

/// The turn of a sound board is the model's.
pub fn law_turn()
    ensures { TurnShowsModel }
{}

/// The runner's step, with its call or death, is the model's.
pub fn law_step()
    ensures { StepShowsModel }
{
    law_granted();
    law_again();
    law_numbered();
}

/// The timer is the model's.
pub fn law_timer()
    ensures { TimerShowsModel }
{}

/// In a run in which nothing happens from outside during them, plain ticks are ticks of the model, and the runner and what
/// was sent stay. Where somebody runs and no deadline has come, nothing comes before the step.
pub fn law_stretch()
    ensures world { StretchShowsModel }
    ensures steady { StretchIsSteady }
    ensures at_step { RunnersAreAtSteps }
{
    law_serving();
    law_timer();
}

/// A kernel call apart from a tick is the model's.
pub fn law_call()
    ensures { CallShowsModel }
{
    law_granted();
    law_again();
    law_numbered();
}

/// A refused call changes its caller's registers 2 and 3 and where it stands, and nothing else.
pub fn law_refusal()
    ensures { RefusalShowsModel }
{
    law_granted();
    law_again();
    law_numbered();
}

/// A call that is to be made again changes its caller's registers 2 and 3 and where it stands; and the one that is asked
/// has a pending revocation, its post words and a row, if nothing was pending for it.
pub fn law_again_answered()
    ensures { AgainShowsModel }
{
    law_granted();
    law_again();
    law_numbered();
}

/// A death apart from a tick is the model's.
pub fn law_death()
    ensures { DeathShowsModel }
{}
