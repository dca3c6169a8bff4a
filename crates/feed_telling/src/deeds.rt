//! What a call of the runner's gives.
ghost use Rattle.std.specs.Prelude.{◌≡◌, ◌<◌, ◌≤◌, ◌^◌, [], ◌∷◌, OnOk, Some};
ghost use Rattle.aegis_limits.specs.Limits.{most_ticks};
ghost use Rattle.world_model.specs.Book.{running};
ghost use Rattle.world_model.specs.Call.{called};
ghost use Rattle.world_model.specs.Event.{revokes};
ghost use Rattle.world_model.specs.Item.{Answer};
ghost use Rattle.world_model.specs.World.{only};
ghost use Rattle.world_model.specs.Verdict.{asks_one, done, reply_to};
ghost use Rattle.feed_telling.specs.Tell.{AreTold, behind_answer};

use crate::items::{tell_answer, tell_asked, tell_gained, tell_lost, tell_start};
use crate::losses::tell_break;
use crate::transfer::tell_transfer;
use crate::view::FeedView;
use aegis_limits::{OutOfMemory, PAGE_SIZE};
use call_verdicts::deed_of;
use feed_log::FeedLog;
use world_model::{CALL_NUMBER, Call, Deed, Verdict};

/// The bytes of a page that is allocated.
const ZEROS: [u8; PAGE_SIZE] = [0; PAGE_SIZE];

/// Tells what a granted call's deed gives behind the answer.
fn tell_deed<V: FeedView>(
    view: &V,
    log: &mut FeedLog,
    watched: u8,
    runner: u8,
    deed: Deed,
) -> Result<(), OutOfMemory>
    requires { running (V.world view.now).book.runner ≡ Some runner }
    ensures { OnOk result (AreTold log.old log.new ((done (V.world view.now) runner deed).items watched)) }
{
    match deed {
        Deed::Gives(target) if u32::from(watched) == target => tell_start(log),
        Deed::Transfers { target, kind } if u32::from(watched) == target => {
            tell_transfer(log, runner, kind, view.runner_registers(runner))
        }
        Deed::Allocates { page, .. } if watched == runner => tell_gained(log, page, true, &ZEROS),
        Deed::Binds { binding, .. } if watched == runner => {
            let bytes = view.page_bytes(binding.page);
            tell_gained(log, binding.page, binding.writable, bytes)
        }
        Deed::Frees(page) if watched == runner => tell_lost(log, page),
        Deed::Frees(page) => tell_break(view, log, watched, page),
        Deed::Recaps { page, .. } if watched != runner => tell_break(view, log, watched, page),
        Deed::Answers
        | Deed::Own(_)
        | Deed::Stops
        | Deed::Gives(_)
        | Deed::Allocates { .. }
        | Deed::Recaps { .. }
        | Deed::Binds { .. }
        | Deed::Unbinds(_)
        | Deed::Transfers { .. }
        | Deed::TakesSlot(_)
        | Deed::DropsSlot(_)
        | Deed::TakesLine(_)
        | Deed::DropsLine(_)
        | Deed::Claims { .. }
        | Deed::Unclaims(_)
        | Deed::Downloads { .. }
        | Deed::Loads(_) => Ok(()),
    }
}

/// Tells that an environment is asked for so many pages more until a deadline, if it is there and lives.
pub(crate) fn tell_revocation<V: FeedView>(
    view: &V,
    log: &mut FeedLog,
    watched: u8,
    env: u8,
    count: u32,
    deadline: u32,
) -> Result<(), OutOfMemory>
    ensures { OnOk result (AreTold log.old log.new ((revokes env count deadline (V.world view.now)).items watched)) }
{
    if watched != env || !view.is_living(env) {
        return Ok(());
    }
    let before = view.pending(env).map_or(0, |pending| pending.outstanding);
    let outstanding = before.saturating_add(count);
    if outstanding == 0 {
        return Ok(());
    }
    tell_asked(log, outstanding, deadline)
}

/// Tells that an environment of which a caller wants a page is asked for one.
fn tell_one_asked<V: FeedView>(
    view: &V,
    log: &mut FeedLog,
    watched: u8,
    who: u8,
) -> Result<(), OutOfMemory>
    requires time { (V.world view.now).book.time ≤ most_ticks }
    ensures { OnOk result (AreTold log.old log.new ((asks_one who (V.world view.now)).items watched)) }
{
    if watched != who || !view.is_living(who) || view.pending(who).is_some() {
        return Ok(());
    }
    let deadline = view.time() + 2 * view.quantum();
    tell_revocation(view, log, watched, who, 1, deadline)
}

/// Tells what comes behind the answer to a call.
fn tell_behind_answer<V: FeedView>(
    view: &V,
    log: &mut FeedLog,
    watched: u8,
    runner: u8,
    verdict: Verdict,
) -> Result<(), OutOfMemory>
    requires runs { running (V.world view.now).book.runner ≡ Some runner }
    requires time { (V.world view.now).book.time ≤ most_ticks }
    ensures { OnOk result (AreTold log.old log.new ((behind_answer (V.world view.now) runner verdict).items watched)) }
{
    match verdict {
        Verdict::Refuse(..) => Ok(()),
        Verdict::Again(who) => tell_one_asked(view, log, watched, who),
        Verdict::Grant(value) => {
            let cpu = view.runner_registers(runner);
            let deed = deed_of(Call::named(cpu.reg(CALL_NUMBER)), value, cpu);
            tell_deed(view, log, watched, runner, deed)
        }
    }
}

/// Tells the runner the answer to its call.
fn tell_own_answer(
    log: &mut FeedLog,
    watched: u8,
    runner: u8,
    verdict: Verdict,
) -> Result<(), OutOfMemory>
    ensures { OnOk result (AreTold log.old log.new (only runner (Answer verdict ∷ []) watched)) }
{
    if watched == runner {
        return tell_answer(log, verdict);
    }
    Ok(())
}

/// Tells the answer to the call at which the runner stands, and what comes behind it.
pub(crate) fn tell_call<V: FeedView>(
    view: &V,
    log: &mut FeedLog,
    watched: u8,
    runner: u8,
) -> Result<(), OutOfMemory>
    requires runs { running (V.world view.now).book.runner ≡ Some runner }
    requires numbers { (V.world view.now).book.next_claim < 2 ^ 32 }
    requires time { (V.world view.now).book.time ≤ most_ticks }
    ensures { OnOk result (AreTold log.old log.new ((reply_to (V.world view.now) runner (called ((V.world view.now).solos runner).cpu)).items watched)) }
{
    let call = Call::named(view.runner_registers(runner).reg(CALL_NUMBER));
    let verdict = view.verdict(runner, call);
    tell_own_answer(log, watched, runner, verdict)?;
    tell_behind_answer(view, log, watched, runner, verdict)
}
