//! What the kernel's upcalls leave in the context page, and in the registers of their handlers.
ghost use Rattle.std.specs.Prelude.{◌≡◌};
ghost use Rattle.env_frames.specs.Transfer.{carried, entered_cpu, entry_bytes};
ghost use Rattle.env_frames.specs.Context.{end_bytes, end_cause, exception_bytes, raised_cpu, resumed_cpu, start_bytes};

use crate::context::{
    END_AREA_SIZE, ENTRY_AREA_SIZE, EXCEPTION_AREA_SIZE, GENERAL_SIZE, START_AREA_SIZE,
};
use crate::transfer::TransferKind;
use byteorder::{ByteOrder, LittleEndian};
use mips_exec::{Cpu, Exc, cause_word, restart};

/// The register in which a handler of exceptions finds Cause.
const CAUSE_REGISTER: u8 = 1;

/// The register in which every handler finds the address at which the program would go on: EPC of an
/// exception, the resume address where a slice starts or ends.
const RESUME_REGISTER: u8 = 26;

/// The register in which a handler of exceptions finds the bad address.
const BAD_ADDRESS_REGISTER: u8 = 27;

/// The bytes of the exception area: the three registers that the handler finds changed, EPC, the bad
/// address and Cause, in words whose lowest byte stands first (`docs/KERNEL.md`, "The context page").
#[tactic(auto, unfolding(crate::specs::Context::exception_bytes))]
pub(crate) fn exception_bytes(cpu: &Cpu, exc: &Exc) -> [u8; EXCEPTION_AREA_SIZE]
    ensures { result ≡ exception_bytes exc.now cpu.now }
{
    let words = [
        cpu.reg(CAUSE_REGISTER),
        cpu.reg(RESUME_REGISTER),
        cpu.reg(BAD_ADDRESS_REGISTER),
        restart(cpu),
        exc.bad,
        cause_word(exc, cpu.slot),
    ];
    let mut bytes = [0; EXCEPTION_AREA_SIZE];
    LittleEndian::write_u32_into(&words, &mut bytes);
    bytes
}

/// The bytes of the start area: the register that the handler finds changed and the resume address, as
/// words of the same form.
#[tactic(auto, unfolding(crate::specs::Context::start_bytes))]
pub(crate) fn start_bytes(cpu: &Cpu) -> [u8; START_AREA_SIZE]
    ensures { result ≡ start_bytes cpu.now }
{
    let words = [cpu.reg(RESUME_REGISTER), restart(cpu)];
    let mut bytes = [0; START_AREA_SIZE];
    LittleEndian::write_u32_into(&words, &mut bytes);
    bytes
}

/// The bytes of the end area: those of a start, and Cause.
#[tactic(auto, unfolding(crate::specs::Context::end_bytes))]
pub(crate) fn end_bytes(cpu: &Cpu) -> [u8; END_AREA_SIZE]
    ensures { result ≡ end_bytes cpu.now }
{
    let words = [cpu.reg(RESUME_REGISTER), restart(cpu), end_cause(cpu)];
    let mut bytes = [0; END_AREA_SIZE];
    LittleEndian::write_u32_into(&words, &mut bytes);
    bytes
}

/// The bytes of the entry area: the registers that were kept of the target, `$1` to `$31`, HI, LO and the
/// resume address; then the caller's number and the kind of the transfer, as words of the same form.
#[tactic(auto, unfolding(crate::specs::Transfer::entry_bytes))]
pub(crate) fn entry_bytes(kept: &Cpu, from: u8, kind: TransferKind) -> [u8; ENTRY_AREA_SIZE]
    ensures { result ≡ entry_bytes from kind kept.now }
{
    let mut bytes = [0; ENTRY_AREA_SIZE];
    let (general, rest) = bytes.split_at_mut(GENERAL_SIZE);
    LittleEndian::write_u32_into(&kept.regs[1..32], general);
    let words = [
        kept.hi,
        kept.lo,
        restart(kept),
        u32::from(from),
        kind.number(),
    ];
    LittleEndian::write_u32_into(&words, rest);
    bytes
}

/// Cause where there was no exception: bit 31 says that `pc` was a delay slot, and all else is 0.
fn end_cause(cpu: &Cpu) -> u32
    ensures { result ≡ end_cause cpu.now }
{
    if cpu.slot { 0x8000_0000 } else { 0 }
}

/// Continues at an exception's handler, which finds Cause, EPC and the bad address in registers.
pub(crate) fn enter_raised(cpu: &mut Cpu, handler: u32, exc: &Exc)
    ensures { cpu.new ≡ raised_cpu handler exc.now cpu.old }
{
    let cause = cause_word(exc, cpu.slot);
    let epc = restart(cpu);
    cpu.set_reg(CAUSE_REGISTER, cause);
    cpu.set_reg(RESUME_REGISTER, epc);
    cpu.set_reg(BAD_ADDRESS_REGISTER, exc.bad);
    cpu.go_on_at(handler);
}

/// Continues at a handler of starts or ends, which finds the resume address in a register.
pub(crate) fn enter_resumed(cpu: &mut Cpu, handler: u32)
    ensures { cpu.new ≡ resumed_cpu handler cpu.old }
{
    let address = restart(cpu);
    cpu.set_reg(RESUME_REGISTER, address);
    cpu.go_on_at(handler);
}

/// The registers with which a transfer enters its target: its caller's `$1` to `$31`, HI and LO, at the entry.
pub(crate) fn entered(entry: u32, caller: &Cpu) -> Cpu
    ensures { result ≡ entered_cpu entry (carried caller.now) }
{
    let mut regs = [0; 32];
    regs[1..32].copy_from_slice(&caller.regs[1..32]);
    let mut cpu = Cpu { regs, ..*caller };
    cpu.go_on_at(entry);
    cpu
}
