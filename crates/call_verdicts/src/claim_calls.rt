//! The verdict on claims of packets.
ghost use Rattle.std.specs.Prelude.{◌≡◌, ◌<◌, ◌^◌, Some};
ghost use Rattle.world_model.specs.Book.{running};
ghost use Rattle.world_model.specs.ClaimCalls.{claim, claim_verdict, filter_at};
ghost use Rattle.world_model.specs.Solo.{sight};

use crate::page_calls::refuse_change;
use crate::view::CallView;
use filter_core::{ATOM_SIZE, Filter, MOST_ATOMS, read_filter};
use filter_tree::ClaimNo;
use world_model::{Code, FIRST_ARGUMENT, SECOND_ARGUMENT, THIRD_ARGUMENT, Verdict};

/// The filter that a claim of the runner's names, of so many atoms from an address on; else why there is none.
pub fn claimed_filter<V: CallView>(
    view: &V,
    env: u8,
    address: u32,
    atoms: u32,
) -> Result<Filter, Code>
    requires { running (V.world view.now).book.runner ≡ Some env }
    ensures { result ≡ filter_at (sight ((V.world view.now).solos env)) address atoms }
{
    if !(1..=MOST_ATOMS as u32).contains(&atoms) {
        return Err(Code::BadFilter);
    }
    let Some(bytes) = view.range(env, address, atoms * ATOM_SIZE as u32) else {
        return Err(Code::BadPointer);
    };
    match read_filter(bytes) {
        Ok(filter) => Ok(filter),
        Err(_) => Err(Code::BadFilter),
    }
}

/// The verdict on a filter, by why the claims that stand refuse it, if they do.
fn judge(refusal: Option<ClaimNo>, next: u32) -> Verdict
    ensures { result ≡ claim_verdict refusal next }
{
    match refusal {
        None => Verdict::Grant(next),
        Some(ClaimNo::Full) => Verdict::Refuse(Code::Full, 0),
        Some(ClaimNo::Overlap(other)) => Verdict::Refuse(Code::Overlap, other),
    }
}

/// The verdict on a claim of the runner's.
#[inline(never)]
pub(crate) fn decide_claim<V: CallView>(view: &V, env: u8) -> Verdict
    requires runs { running (V.world view.now).book.runner ≡ Some env }
    requires numbers { (V.world view.now).book.next_claim < 2 ^ 32 }
    ensures { result ≡ claim (V.world view.now) env }
{
    let cpu = view.registers(env);
    let page = cpu.reg(THIRD_ARGUMENT);
    let address = cpu.reg(FIRST_ARGUMENT);
    let filter = match claimed_filter(view, env, address, cpu.reg(SECOND_ARGUMENT)) {
        Ok(filter) => filter,
        Err(why) => return Verdict::Refuse(why, 0),
    };
    if let Some(why) = refuse_change(view, env, page) {
        return Verdict::Refuse(why, 0);
    }
    judge(view.refuse_claim(env, &filter), view.next_claim())
}
