//! Why calls on slices and slots are refused, and transfers.
ghost use Rattle.std.specs.Prelude.{◌≡◌, ◌<◌, ◌^◌, ◌==◌, Some};
ghost use Rattle.aegis_limits.specs.Limits.{environment_numbers};
ghost use Rattle.env_frames.specs.Transfer.{transfer_numbered};
ghost use Rattle.world_model.specs.Book.{running};
ghost use Rattle.world_model.specs.Call.{any};
ghost use Rattle.world_model.specs.SlotCalls.{accepts, is_other, refusal_of_gift, yield_by};
ghost use Rattle.world_model.specs.Transfers.{refusal_of_transfer, transfer_by};

use crate::arguments::ANY;
use crate::view::CallView;
use env_frames::TransferKind;
use world_model::{Code, Hold, Life, Verdict};

/// Whether a mask has the bit of an environment.
fn accepts(mask: u32, env: u8) -> bool
    requires { env < environment_numbers }
    ensures { result ≡ accepts mask env }
{
    (mask >> env) % 2 == 1
}

/// Whether a number is that of another environment that lives.
fn is_other<V: CallView>(view: &V, env: u8, target: u32) -> bool
    ensures { result ≡ is_other (V.world view.now) env target }
{
    match view.life_at(target) {
        Some(Life::Live) => target != u32::from(env),
        _ => false,
    }
}

/// Why the runner can't give the rest of its slice to a target.
fn refuse_give<V: CallView>(view: &V, env: u8, target: u32) -> Option<Code>
    requires runs { running (V.world view.now).book.runner ≡ Some env }
    requires number { env < environment_numbers }
    requires count { (V.world view.now).count < 2 ^ 8 }
    ensures { result ≡ refusal_of_gift (V.world view.now) env target }
{
    if !is_other(view, env, target) {
        return Some(Code::NoEnv);
    }
    if let Some(why) = view.refuse_gift(false) {
        return Some(why);
    }
    if accepts(view.mask(target as u8), env) {
        None
    } else {
        Some(Code::NotAccepted)
    }
}

/// The verdict on a yield to a target, or to whoever is next.
pub(crate) fn decide_yield<V: CallView>(view: &V, env: u8, target: u32) -> Verdict
    requires runs { running (V.world view.now).book.runner ≡ Some env }
    requires number { env < environment_numbers }
    requires count { (V.world view.now).count < 2 ^ 8 }
    ensures { result ≡ yield_by (V.world view.now) env target (target == any) }
{
    if target == ANY {
        return Verdict::Grant(0);
    }
    Verdict::unless(refuse_give(view, env, target), 0)
}

/// Why the runner can't enter a target.
fn refuse_transfer<V: CallView>(view: &V, env: u8, target: u32, kind: TransferKind) -> Option<Code>
    requires runs { running (V.world view.now).book.runner ≡ Some env }
    requires number { env < environment_numbers }
    requires count { (V.world view.now).count < 2 ^ 8 }
    ensures { result ≡ refusal_of_transfer (V.world view.now) env target kind }
{
    if !is_other(view, env, target) {
        return Some(Code::NoEnv);
    }
    if let Some(why) = view.refuse_gift(kind.hands_slot()) {
        return Some(why);
    }
    let to = target as u8;
    if accepts(view.mask(to), env) && view.handler(to, kind.context()) != 0 {
        None
    } else {
        Some(Code::NotAccepted)
    }
}

/// The verdict on a transfer to a target, of the kind of this number.
pub(crate) fn decide_transfer<V: CallView>(view: &V, env: u8, target: u32, number: u32) -> Verdict
    requires runs { running (V.world view.now).book.runner ≡ Some env }
    requires number { env < environment_numbers }
    requires count { (V.world view.now).count < 2 ^ 8 }
    ensures { result ≡ transfer_by (V.world view.now) env target (transfer_numbered number) }
{
    match TransferKind::numbered(number) {
        Some(kind) => Verdict::unless(refuse_transfer(view, env, target, kind), 0),
        None => Verdict::Refuse(Code::BadCall, 0),
    }
}
