//! Slots by right, and their turns.
ghost use Rattle.slot_law.specs.SlotChange.{SlotsHaveCauses};
ghost use Rattle.slot_law.specs.SlotLaw.{OwnedSlotStays};
ghost use Rattle.slot_law.specs.TurnLeaves.{TurnsLeave};

use call_verdicts::law_granted;

/// In every run, whoever owns a slot keeps it until it drops the slot or dies.
pub fn law_owned_slot_stays()
    ensures { OwnedSlotStays }
{
    law_granted();
}

/// In a tick a slot stays as it is, unless somebody takes it, which was empty; its holder drops it, or hands it on by a
/// synchronous transfer; or its owner or holder dies.
pub fn law_slot_changes()
    ensures { SlotsHaveCauses }
{
    law_granted();
}

/// A turn leaves the cursor at the slot of whoever runs after it, who holds it, begins a quantum of own time and owes
/// nothing. Each environment owes one less for each slot that it pays with in the turn, and the slots stay.
pub fn law_turn_leaves()
    ensures { TurnsLeave }
{}
