//! One instruction of a handler.
ghost use Rattle.std.specs.Prelude.{◌≡◌, length};
ghost use Rattle.std.specs.Option.{option_map};
ghost use Rattle.handler_rules.specs.Running.{after_call, end_by, entry_cpu, handler_step, reply_of, progress_of, state_of};

use crate::lent::step_machine;
use crate::memory::{PAGE_START, bytes_at};
use crate::replies::{MOST_REPLIES, Replies};
use aegis_limits::PAGE_SIZE;
use external_event::{LEAST_FRAME_SIZE, MOST_PACKET_SIZE};
use handler_rules::HandlerEnd;
use mips_exec::{Cpu, ExcCode, Outcome};

/// The register of a first argument: the length of the packet, and the address of a reply.
const FIRST_ARGUMENT: u8 = 4;

/// The register of a second argument: the number of the claim, and the size of a reply.
const SECOND_ARGUMENT: u8 = 5;

/// The registers with which a handler begins.
pub(crate) fn entry_cpu(size: u32, id: u32) -> Cpu
    ensures { result ≡ entry_cpu size id }
{
    let mut cpu = Cpu {
        next: 4,
        ..Cpu::blank()
    };
    cpu.set_reg(FIRST_ARGUMENT, size);
    cpu.set_reg(SECOND_ARGUMENT, id);
    cpu
}

/// How an exception ends a handler.
fn end_by(code: ExcCode) -> HandlerEnd
    ensures { result ≡ end_by code }
{
    match code {
        ExcCode::Bp | ExcCode::Ibe => HandlerEnd::Done,
        _ => HandlerEnd::Fault,
    }
}

/// The bytes of the ring page that a SYSCALL replies with, if they make a reply.
fn reply_of<'a>(cpu: &Cpu, page: &'a [u8]) -> Option<&'a [u8]>
    ensures { option_map (λ bytes. bytes.now) result ≡ reply_of cpu.now page.now }
{
    let size = cpu.reg(SECOND_ARGUMENT);
    if (LEAST_FRAME_SIZE..=MOST_PACKET_SIZE).contains(&(size as usize)) {
        bytes_at(PAGE_START, page, cpu.reg(FIRST_ARGUMENT), size)
    } else {
        None
    }
}

/// Makes the reply of a SYSCALL; the answer is how the handler ended, if it did.
fn take_call(cpu: &mut Cpu, page: &[u8], replies: &mut Replies) -> Option<HandlerEnd>
    ensures { progress_of cpu.new page.now replies.new result ≡ after_call (state_of cpu.old page.now replies.old) }
{
    if replies.count() as usize >= MOST_REPLIES {
        return Some(HandlerEnd::Fault);
    }
    let Some(bytes) = reply_of(cpu, page) else {
        return Some(HandlerEnd::Fault);
    };
    replies.push(bytes);
    cpu.advance();
    None
}

/// Takes one instruction; the answer is how the handler ended with it, if it did.
pub(crate) fn step_handler(
    words: &[u32],
    packet: &[u8],
    cpu: &mut Cpu,
    page: &mut [u8; PAGE_SIZE],
    replies: &mut Replies,
) -> Option<HandlerEnd>
    ensures { progress_of cpu.new page.new replies.new result ≡ handler_step words.now packet.now (state_of cpu.old page.old replies.old) }
{
    match step_machine(words, packet, cpu, page) {
        Outcome::Retired => None,
        Outcome::Call => take_call(cpu, &page[..], replies),
        Outcome::Trap(exc) => Some(end_by(exc.code)),
    }
}
