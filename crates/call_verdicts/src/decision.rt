//! The verdict on a call, and what it does where it is granted.
ghost use Rattle.std.specs.Prelude.{◌≡◌, ◌<◌, ◌^◌, ◌==◌, Some};
ghost use Rattle.aegis_limits.specs.Limits.{environment_numbers};
ghost use Rattle.world_model.specs.Book.{running};
ghost use Rattle.env_frames.specs.Context.{context_numbered};
ghost use Rattle.env_frames.specs.Transfer.{transfer_numbered};
ghost use Rattle.mips_exec.specs.Cpu.{reg};
ghost use Rattle.world_model.specs.declared.call.Deed.TheVariants.{Claims, Downloads};
ghost use Rattle.world_model.specs.Call.{any, context_deed, deed_of as deed_of_call, line_deed, transfer_deed, yield_deed};
ghost use Rattle.world_model.specs.Verdict.{verdict};

use crate::arguments::{ANY, binding, presented, words};
use crate::backup_calls::refuse_load;
use crate::claim_calls::decide_claim;
use crate::handler_calls::decide_download;
use crate::line_calls::{TAKE, refuse_line};
use crate::own_calls::{refuse_context, refuse_put, refuse_send};
use crate::page_calls::{decide_alloc, refuse_bind, refuse_change, refuse_unbind};
use crate::queries::ask;
use crate::slot_calls::{decide_transfer, decide_yield};
use crate::view::CallView;
use env_frames::{Context, TransferKind};
use mips_exec::Cpu;
use world_model::{
    Call, Code, Deed, FIRST_ARGUMENT, OwnDeed, SECOND_ARGUMENT, THIRD_ARGUMENT, Verdict,
    drop_refusal, take_refusal,
};

/// The verdict on a call of the runner's; a number that names no call is refused. Each reader of the view is asked at
/// most once. It is inlined, and where the call is known it is the code of that call alone.
#[inline(always)]
pub fn decide<V: CallView>(view: &V, env: u8, call: Option<Call>) -> Verdict
    requires runs { running (V.world view.now).book.runner ≡ Some env }
    requires number { env < environment_numbers }
    requires count { (V.world view.now).count < 2 ^ 8 }
    requires own { ((V.world view.now).solos env).number ≡ env }
    requires numbers { (V.world view.now).book.next_claim < 2 ^ 32 }
    ensures { result ≡ verdict (V.world view.now) env call }
{
    match call {
        None => Verdict::Refuse(Code::BadCall, 0),
        Some(call) => named_verdict(view, env, call),
    }
}

/// The verdict on a call by its name.
#[inline(always)]
fn named_verdict<V: CallView>(view: &V, env: u8, call: Call) -> Verdict
    requires runs { running (V.world view.now).book.runner ≡ Some env }
    requires number { env < environment_numbers }
    requires count { (V.world view.now).count < 2 ^ 8 }
    requires own { ((V.world view.now).solos env).number ≡ env }
    requires numbers { (V.world view.now).book.next_claim < 2 ^ 32 }
    ensures { result ≡ verdict (V.world view.now) env (Some call) }
{
    let cpu = view.registers(env);
    let first = cpu.reg(FIRST_ARGUMENT);
    let second = cpu.reg(SECOND_ARGUMENT);
    match call {
        Call::Yield => decide_yield(view, env, first),
        Call::Put => Verdict::unless(refuse_put(view, env), second),
        Call::Alloc => decide_alloc(view, env, first),
        Call::Free | Call::Recap => Verdict::unless(refuse_change(view, env, first), 0),
        Call::Bind => Verdict::unless(refuse_bind(view, env), 0),
        Call::Unbind => {
            let bound = u32::from(view.is_bound(env, first));
            Verdict::unless(refuse_unbind(view, env, first), bound)
        }
        Call::Context => Verdict::unless(refuse_context(cpu), 0),
        Call::Accept => Verdict::Grant(0),
        Call::Transfer => decide_transfer(view, env, first, second),
        Call::SlotTake => Verdict::unless(take_refusal(view.slot(first)), 0),
        Call::SlotDrop => Verdict::unless(drop_refusal(view.slot(first), env), 0),
        Call::Query => Verdict::of(ask(view, env, first, second)),
        Call::Claim => decide_claim(view, env),
        Call::Unclaim if view.has_claim(env, first) => Verdict::Grant(0),
        Call::Unclaim => Verdict::Refuse(Code::NoFilter, 0),
        Call::Handler => decide_download(view, env),
        Call::Line => Verdict::unless(refuse_line(view, env, first, second), 0),
        Call::Backup => Verdict::unless(refuse_load(view, env, first), 0),
        Call::Send => Verdict::unless(refuse_send(view, env), 0),
        Call::OwnNumber => Verdict::Grant(u32::from(env)),
        Call::Clock => Verdict::Grant(view.time()),
    }
}

/// What a call does that is granted with a value, to a caller with these registers (`docs/KERNEL.md`).
#[inline(always)]
pub fn deed_of(call: Option<Call>, value: u32, cpu: &Cpu) -> Deed
    ensures { result ≡ deed_of_call call value cpu.now }
{
    match call {
        None => Deed::Answers,
        Some(call) => named_deed(call, value, cpu),
    }
}

/// The same of a call by its name. It is inlined where the deed is done, with what it calls: elsewhere it would be copied
/// and read again.
#[inline(always)]
fn named_deed(call: Call, value: u32, cpu: &Cpu) -> Deed
    ensures { result ≡ deed_of_call (Some call) value cpu.now }
{
    let first = cpu.reg(FIRST_ARGUMENT);
    let second = cpu.reg(SECOND_ARGUMENT);
    match call {
        Call::Yield => yield_deed(first),
        Call::Put => Deed::Own(OwnDeed::Puts {
            address: first,
            size: second,
        }),
        Call::Alloc => Deed::Allocates {
            page: value,
            words: words(cpu),
        },
        Call::Free => Deed::Frees(first),
        Call::Recap => Deed::Recaps {
            page: first,
            words: words(cpu),
        },
        Call::Bind => Deed::Binds {
            binding: binding(cpu),
            word: presented(cpu),
        },
        Call::Unbind => Deed::Unbinds(first),
        Call::Context => context_deed(first, second),
        Call::Accept => Deed::Own(OwnDeed::Accepts(first)),
        Call::Transfer => transfer_deed(first, second),
        Call::SlotTake => Deed::TakesSlot(first),
        Call::SlotDrop => Deed::DropsSlot(first),
        Call::Claim => claim_deed(value, cpu),
        Call::Unclaim => Deed::Unclaims(first),
        Call::Handler => download_deed(cpu),
        Call::Line => line_deed(first, second),
        Call::Backup => Deed::Loads(first),
        Call::Send => Deed::Own(OwnDeed::Sends {
            address: first,
            size: second,
        }),
        Call::Query | Call::OwnNumber | Call::Clock => Deed::Answers,
    }
}

/// What a call of `Yield` does: it gives the slice to an environment, or to any.
#[inline(always)]
fn yield_deed(target: u32) -> Deed
    ensures { result ≡ yield_deed target (target == any) }
{
    if target == ANY {
        Deed::Stops
    } else {
        Deed::Gives(target)
    }
}

/// What a call of `Context` does: the context of this number gets an address.
#[inline(always)]
fn context_deed(number: u32, address: u32) -> Deed
    ensures { result ≡ context_deed (context_numbered number) address }
{
    match Context::numbered(number) {
        Some(context) => Deed::Own(OwnDeed::Handles { context, address }),
        None => Deed::Answers,
    }
}

/// What a call of `Transfer` does, whose kind has this number.
#[inline(always)]
fn transfer_deed(target: u32, kind: u32) -> Deed
    ensures { result ≡ transfer_deed target (transfer_numbered kind) }
{
    match TransferKind::numbered(kind) {
        Some(kind) => Deed::Transfers { target, kind },
        None => Deed::Answers,
    }
}

/// What a call of `Claim` does that is granted with the number of the claim.
#[inline(always)]
fn claim_deed(claim: u32, cpu: &Cpu) -> Deed
    ensures { result ≡ Claims claim (reg cpu.now 4) (reg cpu.now 5) (reg cpu.now 6) }
{
    Deed::Claims {
        claim,
        address: cpu.reg(FIRST_ARGUMENT),
        atoms: cpu.reg(SECOND_ARGUMENT),
        page: cpu.reg(THIRD_ARGUMENT),
    }
}

/// What a call of `Handler` does: the claim of a number gets the handler whose words stand at an address.
#[inline(always)]
fn download_deed(cpu: &Cpu) -> Deed
    ensures { result ≡ Downloads (reg cpu.now 4) (reg cpu.now 5) (reg cpu.now 6) }
{
    Deed::Downloads {
        claim: cpu.reg(FIRST_ARGUMENT),
        address: cpu.reg(SECOND_ARGUMENT),
        words: cpu.reg(THIRD_ARGUMENT),
    }
}

/// What a call of `Line` does: it takes the line or drops it.
#[inline(always)]
fn line_deed(line: u32, act: u32) -> Deed
    ensures { result ≡ line_deed line (act == 1) }
{
    if act == TAKE {
        Deed::TakesLine(line)
    } else {
        Deed::DropsLine(line)
    }
}
