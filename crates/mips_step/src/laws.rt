//! The laws of steps.
ghost use Rattle.mips_exec.specs.Kept.{StepsAreSound};
ghost use Rattle.mips_step.specs.WordStep.{PlainWordsAreSteps, SyscallsCall, SystemWordsTrap};

/// In each step words stay words, and what is written is 1 to 4 bytes of one aligned word, where memory
/// takes them (`docs/MACHINE.md`, "Effect").
pub fn steps_are_sound()
    ensures { StepsAreSound }
{}

/// A word of coprocessor 0's opcode doesn't retire by the instruction table: in user mode it is an exception
/// (`docs/MACHINE.md`, "Effect").
pub fn law_system_words_trap()
    ensures { SystemWordsTrap }
{}

/// SYSCALL outside a delay slot is a call of the kernel, whatever its code and whatever memory answers.
pub fn law_syscalls_call()
    ensures { SyscallsCall }
{}

/// The step of a word that neither loads nor stores asks no memory.
pub fn law_plain_words()
    ensures { PlainWordsAreSteps }
{}
