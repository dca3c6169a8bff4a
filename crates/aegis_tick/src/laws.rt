//! The laws of a tick's halves, and of events in their order.
ghost use Rattle.aegis_tick.specs.Agenda.{AgendasAreRight};
ghost use Rattle.aegis_tick.specs.Halves.{HalvesAreTick, IdleWorldsStay, MiddlesAreAtSteps, MiddlesGoOn};

use run_model::law_moments;

/// Law: the two halves are the tick. What happens in it and the first half lead to its middle, which is the moment at its
/// step, and the second half leads from there to the next world.
pub fn law_halves()
    ensures tick { HalvesAreTick }
    ensures next { MiddlesGoOn }
    ensures middle { MiddlesAreAtSteps }
{
    law_moments();
}

/// Law: an idle world stays as it is.
pub fn law_idle()
    ensures { IdleWorldsStay }
{}

/// Law: of events in their order, which are to come from a time on, those of that time are the first, and the others are to
/// come after it. Before the next of them nothing happens.
pub fn law_agenda()
    ensures { AgendasAreRight }
{}
