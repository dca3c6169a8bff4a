//! The runner's verdict and timer, and who lives.
ghost use Rattle.std.specs.Prelude.{true, ◌≡◌, ◌<◌, ◌^◌, Some};
ghost use Rattle.slot_vector.specs.Slices.{timer_answer};
ghost use Rattle.world_model.specs.Book.{running};
ghost use Rattle.world_model.specs.Verdict.{verdict as verdict_on};
ghost use Rattle.world_model.specs.World.{is_living as is_living_in};
ghost use Rattle.board_model.specs.Showing.{world_of};
ghost use Rattle.feed_telling.specs.Tell.{timer_when};
ghost use Rattle.feed_board.specs.Timing.{runs_in_grace};

use aegis_calls::Board;
use aegis_limits::EXCESS_LIMIT;
use call_verdicts::{CallView, decide};
use env_frames::Context;
use revocation_book::Pending;
use slot_vector::Slots;
use world_model::{Call, Life, Timer, Verdict};

/// The verdict on a call of the runner's.
pub(crate) fn verdict(board: &Board, runner: u8, call: Option<Call>) -> Verdict
    requires runs { running board.now.slots.runner ≡ Some runner }
    requires numbers { board.now.claims.next < 2 ^ 32 }
    ensures { result ≡ verdict_on (world_of board.now) runner call }
{
    board.law_sound();
    decide(board, runner, call)
}

/// Whether an environment runs in time of grace, in which it can't give its slice away.
fn is_in_grace(slots: &Slots) -> bool
    ensures { result ≡ runs_in_grace slots.now.runner }
{
    slots.may_donate(false).is_err()
}

/// What the timer answers after a tick of the runner's quantum, if the runner has a handler of ends or not.
fn timer_after(slots: &Slots, runner: u8, has_end: bool) -> Timer
    requires { running slots.now.runner ≡ Some runner }
    ensures { result ≡ timer_answer slots.now has_end }
{
    if slots.left() != 1 {
        return Timer::Nothing;
    }
    if !is_in_grace(slots) {
        return if has_end { Timer::End } else { Timer::Stop };
    }
    let excess = slots.excess(runner) + 1;
    if excess > EXCESS_LIMIT {
        Timer::Kill
    } else {
        Timer::Over(excess)
    }
}

/// What the timer answers after the runner's tick; nothing where nobody runs.
pub(crate) fn timer(board: &Board) -> Timer
    ensures { result ≡ timer_when (world_of board.now) board.now.slots.runner }
{
    board.law_sound();
    match board.slots().runner() {
        Some(runner) => {
            let end = board.handler(runner, Context::End);
            timer_after(board.slots(), runner, end != 0)
        }
        None => Timer::Nothing,
    }
}

/// Whether there is an environment of this number, and it lives.
pub(crate) fn is_living(board: &Board, env: u8) -> bool
    ensures { result ≡ is_living_in (world_of board.now) env }
{
    matches!(board.life_at(u32::from(env)), Some(Life::Live))
}

/// What an environment that lives is asked for and hasn't given back.
pub(crate) fn pending(board: &Board, env: u8) -> Option<Pending>
    requires { is_living_in (world_of board.now) env ≡ true }
    ensures { result ≡ (world_of board.now).book.pending env }
{
    board.law_sound();
    board.revocations().pending(env)
}
