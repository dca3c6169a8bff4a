//! Why calls that read and change their caller alone are refused.
ghost use Rattle.std.specs.Prelude.{◌≡◌, Some};
ghost use Rattle.world_model.specs.Book.{running};
ghost use Rattle.world_model.specs.OwnCalls.{refusal_of_context};
ghost use Rattle.call_verdicts.specs.Refusals.{refusal_of_put_call, refusal_of_send_call};

use crate::view::CallView;
use aegis_limits::CONSOLE_SIZE;
use env_frames::Context;
use external_event::{LEAST_FRAME_SIZE, MOST_PACKET_SIZE, MOST_SENT};
use mips_exec::{Cpu, USER_END};
use world_model::{Code, FIRST_ARGUMENT, SECOND_ARGUMENT};

/// Why the runner's put is refused, in the order of testing.
pub(crate) fn refuse_put<V: CallView>(view: &V, env: u8) -> Option<Code>
    requires { running (V.world view.now).book.runner ≡ Some env }
    ensures { result ≡ refusal_of_put_call ((V.world view.now).solos env) }
{
    let cpu = view.registers(env);
    let address = cpu.reg(FIRST_ARGUMENT);
    let size = cpu.reg(SECOND_ARGUMENT);
    if size != 0 && view.range(env, address, size).is_none() {
        return Some(Code::BadPointer);
    }
    if view.console_size(env) + size as usize > CONSOLE_SIZE {
        return Some(Code::ConsoleFull);
    }
    None
}

/// Why the runner's send is refused, in the order of testing.
pub(crate) fn refuse_send<V: CallView>(view: &V, env: u8) -> Option<Code>
    requires { running (V.world view.now).book.runner ≡ Some env }
    ensures { result ≡ refusal_of_send_call ((V.world view.now).solos env) }
{
    let cpu = view.registers(env);
    let size = cpu.reg(SECOND_ARGUMENT);
    if !(LEAST_FRAME_SIZE..=MOST_PACKET_SIZE).contains(&(size as usize)) {
        return Some(Code::BadCall);
    }
    if view.range(env, cpu.reg(FIRST_ARGUMENT), size).is_none() {
        return Some(Code::BadPointer);
    }
    if view.count_sent(env) >= MOST_SENT {
        return Some(Code::Full);
    }
    None
}

/// Why a handler can't be set: there is no such context, or its address isn't a word's, of user space.
pub(crate) fn refuse_context(cpu: &Cpu) -> Option<Code>
    ensures { result ≡ refusal_of_context cpu.now }
{
    let address = cpu.reg(SECOND_ARGUMENT);
    if Context::numbered(cpu.reg(FIRST_ARGUMENT)).is_some()
        && address % 4 == 0
        && address < USER_END
    {
        None
    } else {
        Some(Code::BadCall)
    }
}
