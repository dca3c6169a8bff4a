//! What a call names in its caller's registers.
ghost use Rattle.std.specs.Prelude.{◌≡◌};
ghost use Rattle.world_model.specs.Call.{binding_of, presented as presented_of, word_in, words_of};

use bind_book::Binding;
use mips_exec::Cpu;
use page_book::Capabilities;
use world_model::{
    FIFTH_ARGUMENT, FIRST_ARGUMENT, FOURTH_ARGUMENT, SECOND_ARGUMENT, THIRD_ARGUMENT,
};

/// The argument of a yield that names no environment, and of an allocation that names no page.
pub(crate) const ANY: u32 = 0xffff_ffff;

/// A capability word in two registers, the low half first.
fn word(low: u32, high: u32) -> u64
    ensures { result ≡ word_in low high }
{
    u64::from(low) + (u64::from(high) << 32)
}

/// The words that an allocation or a recap gives a page.
pub(crate) fn words(cpu: &Cpu) -> Capabilities
    ensures { result ≡ words_of cpu.now }
{
    Capabilities {
        read: word(cpu.reg(SECOND_ARGUMENT), cpu.reg(THIRD_ARGUMENT)),
        write: word(cpu.reg(FOURTH_ARGUMENT), cpu.reg(FIFTH_ARGUMENT)),
    }
}

/// The binding that a bind names.
pub(crate) fn binding(cpu: &Cpu) -> Binding
    ensures { result ≡ binding_of cpu.now }
{
    Binding {
        vpn: cpu.reg(FIRST_ARGUMENT),
        page: cpu.reg(SECOND_ARGUMENT),
        writable: cpu.reg(THIRD_ARGUMENT) != 0,
    }
}

/// The capability word that a bind presents.
pub(crate) fn presented(cpu: &Cpu) -> u64
    ensures { result ≡ presented_of cpu.now }
{
    word(cpu.reg(FOURTH_ARGUMENT), cpu.reg(FIFTH_ARGUMENT))
}
