//! The law of steps.
ghost use Rattle.r3k_machine.specs.System.{RetiredStepsAreTheMachines};

use mips_step::law_system_words_trap;

/// A step of the instruction table that retires is the machine's, in kernel mode too: so steps that
/// `Machine::run` makes are those that `Machine::step` would have made.
pub fn law_retired_steps()
    ensures { RetiredStepsAreTheMachines }
{
    law_system_words_trap();
}
