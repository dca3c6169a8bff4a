//! The law of turns: what comes next, again and again, makes the whole turn that the model tells at once.
ghost use Rattle.slot_vector.specs.Laws.{ExcessSetsOne, ForfeitComesFirst, ForfeitLowersOwed, IdleIsNobodys, RunEndsTurn, RunsNobodyWhereNoneHeld};

/// What comes next, again and again, makes the whole turn. A forfeit comes first in it, and the rest is the turn of the
/// vector after it; with each forfeit the environments owe one quantum less all together, so that a turn ends. A run
/// ends the turn, and nothing is forfeited before it. Where nobody is next, the turn is nobody's: it runs nobody exactly
/// where no slot is held. Another excess of one environment changes that of no other.
pub fn law_turns()
    ensures pay { ForfeitComesFirst }
    ensures lowers { ForfeitLowersOwed }
    ensures run { RunEndsTurn }
    ensures idle { IdleIsNobodys }
    ensures nobody { RunsNobodyWhereNoneHeld }
    ensures excess { ExcessSetsOne }
{}
