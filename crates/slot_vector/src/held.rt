//! Which slots an environment may take, drop or hand on, what becomes of one, and who runs after a gift or a death.
ghost use Rattle.std.specs.Option.{option_map};
ghost use Rattle.std.specs.Prelude.{◌≡◌, ◌<◌, All, IsSome, None, if◌then◌else◌, length, slice_get, slice_set};
ghost use Rattle.world_model.specs.SlotCalls.{dropped, gift_refusal, handed, held_by};
ghost use Rattle.world_model.specs.Book.{is_runner};
ghost use Rattle.slot_vector.specs.Slices.{IsNumbered, RunsByNumber};
ghost use Rattle.aegis_limits.specs.Limits.{environment_numbers};

use crate::search::Row;
use world_model::{Code, Hold, Phase, Runner};

/// The slot at this place, where there is one.
pub(crate) fn slot_at(slots: &[Option<Hold>], place: usize) -> Option<Option<Hold>>
    ensures slot { result ≡ slice_get slots.now place }
    ensures there { IsSome result → place < length slots.now }
{
    slots.get(place).copied()
}

/// The slot once the environment, its holder, has dropped it.
pub(crate) fn dropped(slot: Option<Hold>, env: u8) -> Option<Hold>
    ensures hold { result ≡ dropped env slot }
    ensures numbered { IsNumbered slot → IsNumbered result }
{
    slot?.dropped_by(env)
}

/// Why a runner can't hand on the slice that it runs, or for a later its slot: `NoSlice` in time of grace, and
/// `NotHolder` where it doesn't hold the slot.
pub(crate) fn gift_refusal(later: bool, runner: Option<Runner>, slot: Option<Hold>) -> Option<Code>
    ensures { result ≡ gift_refusal later runner slot }
{
    let runner = runner?;
    match runner.phase {
        Phase::Grace => Some(Code::NoSlice),
        Phase::Own if later && !slot.is_some_and(|hold| hold.is_held_by(runner.env)) => Some(
            Code::NotHolder,
        ),
        Phase::Own => None,
    }
}

/// The slot with another holder; its owner stays.
pub(crate) fn held_by(slot: Option<Hold>, env: u8) -> Option<Hold>
    ensures hold { result ≡ option_map (held_by env) slot }
    ensures numbered { IsNumbered slot → env < environment_numbers → IsNumbered result }
{
    Some(slot?.held_by(env))
}

/// The slot has this hold now.
pub(crate) fn put(slots: &mut Row, slot: usize, hold: Option<Hold>)
    requires { slot < length slots.old.items }
    ensures put { slots.new.items ≡ slice_set slots.old.items slot hold }
    ensures numbered { All IsNumbered slots.old.items → IsNumbered hold → All IsNumbered slots.new.items }
{
    slots.as_mut_slice()[slot] = hold;
}

/// The runner's turn, with which another environment goes on.
pub(crate) fn handed(runner: Option<Runner>, to: u8) -> Option<Runner>
    ensures turn { result ≡ handed to runner }
    ensures numbered { to < environment_numbers → RunsByNumber result }
{
    let runner = runner?;
    Some(Runner { env: to, ..runner })
}

/// The runner, unless it is the environment.
pub(crate) fn another(runner: Option<Runner>, env: u8) -> Option<Runner>
    ensures turn { result ≡ (if is_runner env runner then None else runner) }
    ensures numbered { RunsByNumber runner → RunsByNumber result }
{
    match runner {
        Some(running) if running.env == env => None,
        _ => runner,
    }
}
