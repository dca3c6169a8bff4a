//! What the timer answers.
/// What the timer answers at the end of a tick, of the runner's quantum.
#[derive(Clone, Copy)]
pub enum Timer {
    /// Ticks are left of it, and the runner goes on.
    Nothing,
    /// The slice is used up, and the runner is told: it has a quantum of grace.
    End,
    /// The slice is used up, and the runner is stopped.
    Stop,
    /// A quantum of grace is used up: the runner's excess is this now, and it has another one.
    Over(u32),
    /// A quantum of grace is used up, and the runner's excess passes the limit: it is to die.
    Kill,
}
