//! What comes next in the vector.
use world_model::Turn;

/// What comes next where nobody runs.
#[derive(Clone, Copy)]
pub enum NextTurn {
    /// The slot is forfeited: its holder owed, and owes one quantum less.
    Pay(Turn),
    /// The slot's holder runs, with a full quantum.
    Run(Turn),
    /// No slot has a holder.
    Idle,
}
