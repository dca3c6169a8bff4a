//! One step of the processor in user mode. `step_user` is proved to be the definition of the instruction
//! table (`docs/MACHINE.md`), over any memory that a `Bus` answers for.
#![tactic(auto)]

mod arithmetic;
mod change;
mod laws;
mod live;
mod memory;
mod memory_table;
mod step;
mod table;

pub use laws::{law_plain_words, law_syscalls_call, law_system_words_trap, steps_are_sound};
pub use live::Live;
pub use memory::Bus;
pub use memory_table::moves_word;
pub use step::{
    is_syscall, named_address, retire_access, retire_plain, retire_word_access, step_fetched,
    step_user,
};
