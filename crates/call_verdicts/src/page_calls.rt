//! Why calls on pages are refused.
ghost use Rattle.std.specs.Prelude.{◌≡◌, Some};
ghost use Rattle.std.specs.Option.{option_map};
ghost use Rattle.page_book.specs.Row.{alloc_refusal, bind_refusal, change_refusal};
ghost use Rattle.world_model.specs.Code.{code_of};
ghost use Rattle.world_model.specs.Book.{page_row, running};
ghost use Rattle.world_model.specs.PageCalls.{alloc, pressed, revocations, is_guaranteed_vpn, vpn_refusal, refusal_of_change};
ghost use Rattle.mips_exec.specs.Cpu.{reg};
ghost use Rattle.revocation_book.specs.Richest.{richest};
ghost use Rattle.call_verdicts.specs.Refusals.{refusal_of_bind_call};

use crate::arguments::{ANY, binding, presented};
use crate::view::CallView;
use aegis_limits::{VPN_END, Version};
use page_book::{PageNo, PageRow};
use world_model::{Code, Verdict};

/// What a caller is told of a refusal by the book of pages, if it is one.
fn refuse(why: Option<PageNo>) -> Option<Code>
    ensures { result ≡ option_map code_of why }
{
    Some(Code::from(why?))
}

/// Why the page with this row, if there is one, can't be allocated.
fn refuse_alloc(row: Option<PageRow>) -> Option<Code>
    ensures { result ≡ option_map code_of (alloc_refusal row) }
{
    match row {
        None => Some(Code::NoPage),
        Some(row) => refuse(row.alloc_refusal()),
    }
}

/// The verdict on an allocation of any page where none is free: version 2 asks the other environment with the most
/// revocable pages, if another has any.
fn press<V: CallView>(view: &V, env: u8) -> Verdict
    requires { running (V.world view.now).book.runner ≡ Some env }
    ensures { result ≡ pressed (V.world view.now).book.version (richest (revocations (V.world view.now).book) env) }
{
    match view.version() {
        Version::One => Verdict::Refuse(Code::NoneFree, 0),
        Version::Two => match view.richest(env) {
            None => Verdict::Refuse(Code::NoneFree, 0),
            Some(who) => Verdict::Again(who),
        },
    }
}

/// The verdict on the runner's allocation of a page, or of any.
pub(crate) fn decide_alloc<V: CallView>(view: &V, env: u8, page: u32) -> Verdict
    requires runs { running (V.world view.now).book.runner ≡ Some env }
    requires named { reg ((V.world view.now).solos env).cpu 4 ≡ page }
    ensures { result ≡ alloc (V.world view.now) env }
{
    if page != ANY {
        return Verdict::unless(refuse_alloc(view.page_row(page)), page);
    }
    match view.lowest_free() {
        Some(page) => Verdict::Grant(page),
        None => press(view, env),
    }
}

/// Why an environment can't free the page with this row, if there is one, or give it other words.
fn refuse_row(env: u8, row: Option<PageRow>) -> Option<Code>
    ensures { result ≡ option_map code_of (change_refusal env row) }
{
    match row {
        None => Some(Code::NoPage),
        Some(row) => refuse(row.change_refusal(env)),
    }
}

/// Why the runner can't free a page, or give it other words.
pub(crate) fn refuse_change<V: CallView>(view: &V, env: u8, page: u32) -> Option<Code>
    ensures { result ≡ refusal_of_change (V.world view.now) env page }
{
    refuse_row(env, view.page_row(page))
}

/// Why nothing is bound or unbound at a VPN, which is guaranteed or not.
fn refuse_vpn(guaranteed: bool, vpn: u32) -> Option<Code>
    ensures { result ≡ vpn_refusal guaranteed vpn }
{
    if vpn >= VPN_END {
        Some(Code::BadVpn)
    } else if guaranteed {
        Some(Code::Guaranteed)
    } else {
        None
    }
}

/// Why the runner's unbind is refused, or its bind, by the VPN that it names.
pub(crate) fn refuse_unbind<V: CallView>(view: &V, env: u8, vpn: u32) -> Option<Code>
    requires { running (V.world view.now).book.runner ≡ Some env }
    ensures { result ≡ vpn_refusal (is_guaranteed_vpn ((V.world view.now).solos env) vpn) vpn }
{
    refuse_vpn(view.is_guaranteed(env, vpn), vpn)
}

/// Why an environment that presents a word can't bind the page with this row, if there is one.
fn refuse_right(env: u8, writable: bool, word: u64, row: Option<PageRow>) -> Option<Code>
    ensures { result ≡ option_map code_of (bind_refusal env writable word row) }
{
    match row {
        None => Some(Code::NoPage),
        Some(row) => refuse(row.bind_refusal(env, writable, word)),
    }
}

/// Why the runner's bind is refused, in the order of testing.
pub(crate) fn refuse_bind<V: CallView>(view: &V, env: u8) -> Option<Code>
    requires { running (V.world view.now).book.runner ≡ Some env }
    ensures { result ≡ refusal_of_bind_call (V.world view.now) env }
{
    let cpu = view.registers(env);
    let named = binding(cpu);
    if let Some(why) = refuse_unbind(view, env, named.vpn) {
        return Some(why);
    }
    let row = view.page_row(named.page);
    refuse_right(env, named.writable, presented(cpu), row)
}
