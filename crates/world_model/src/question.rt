//! The questions of a query, and their numbers.
ghost use Rattle.std.specs.Prelude.{◌≡◌};

/// What a query asks about the kernel's book (`docs/KERNEL.md`, "Questions").
#[derive(Clone, Copy)]
pub enum Question {
    /// How many pages are free.
    FreePages,
    /// How many pages there are.
    Pages,
    /// How many environments there are, the dead among them.
    Environments,
    /// How many slots there are.
    Slots,
    /// How many ticks a quantum has.
    Quantum,
    /// Whose a page is.
    PageOwner,
    /// Who holds a slot.
    SlotHolder,
    /// How many quanta the caller owes.
    Excess,
    /// Whether an environment is dead.
    Death,
}

impl Question {
    ghost use Rattle.world_model.specs.Queries.{question_numbered};

    /// The question of this number: 0 to 8 in the order of the variants. Every other number names none.
    pub fn numbered(number: u32) -> Option<Question>
        ensures { result ≡ question_numbered number }
    {
        match number {
            0 => Some(Question::FreePages),
            1 => Some(Question::Pages),
            2 => Some(Question::Environments),
            3 => Some(Question::Slots),
            4 => Some(Question::Quantum),
            5 => Some(Question::PageOwner),
            6 => Some(Question::SlotHolder),
            7 => Some(Question::Excess),
            8 => Some(Question::Death),
            _ => None,
        }
    }
}
