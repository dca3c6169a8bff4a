//! The registers that a transfer hands on.
ghost use Rattle.std.specs.Prelude.{◌≡◌, [], ◌∷◌, OnOk};
ghost use Rattle.env_frames.specs.Transfer.{carried};
ghost use Rattle.feed_log.specs.Views.{AreRegistersFit, AreWords, transfer_text};
ghost use Rattle.world_model.specs.Item.{Transfer};
ghost use Rattle.feed_telling.specs.Tell.{AreTold};

use crate::items::tell;
use aegis_limits::OutOfMemory;
use byteorder::{ByteOrder, LittleEndian};
use env_frames::TransferKind;
use feed_log::{FeedLog, ItemKind};
use mips_exec::Cpu;

/// The bytes of registers 1 to 31.
const GENERAL_SIZE: usize = 124;

/// The bytes of the registers that a transfer hands on: those, HI and LO.
const CARRIED_SIZE: usize = 132;

/// The registers that a transfer hands on, the bytes of each the lowest first.
fn carried_bytes(cpu: &Cpu) -> [u8; CARRIED_SIZE]
    ensures { result ≡ transfer_text (carried cpu.now) }
{
    let mut bytes = [0; CARRIED_SIZE];
    let (general, rest) = bytes.split_at_mut(GENERAL_SIZE);
    LittleEndian::write_u32_into(&cpu.regs[1..32], general);
    LittleEndian::write_u32_into(&[cpu.hi, cpu.lo], rest);
    bytes
}

/// Law: registers hold words.
fn law_words(registers: &[u32])
    ensures { AreWords registers.now }
{
    let _count = registers.len();
}

/// Law: what a transfer hands on is fit to be shown.
fn law_carried(cpu: &Cpu)
    ensures { AreRegistersFit (carried cpu.now) }
{
    law_words(&cpu.regs[1..32]);
    let _words = (cpu.hi, cpu.lo);
}

/// Tells a transfer to the environment, by whom, of which kind, and of which registers.
pub(crate) fn tell_transfer(
    log: &mut FeedLog,
    from: u8,
    kind: TransferKind,
    cpu: &Cpu,
) -> Result<(), OutOfMemory>
    ensures { OnOk result (AreTold log.old log.new (Transfer from kind (carried cpu.now) ∷ [])) }
{
    law_carried(cpu);
    let bytes = carried_bytes(cpu);
    tell(
        log,
        ItemKind::Transfer,
        u32::from(from),
        kind.number(),
        &bytes,
    )
}
