//! The words of drafts.
ghost use Rattle.std.specs.Prelude.{◌≡◌, ◌+◌, ◌<◌, ◌^◌};
ghost use Rattle.mips_isa.specs.Encoding.{IsEncodable, word_of};
ghost use Rattle.line_text.specs.Failing.{Gives};
ghost use Rattle.asm_layout.specs.Seen.{draft_seen};
ghost use Rattle.mips_asm.specs.Emission.{draft_bytes};
ghost use Rattle.mips_asm.specs.Second.{onto};

use crate::field::field_bits;
use asm_layout::{Draft, Filling, Names, defined};
use asm_parse::AsmWhy;
use byte_numbers::push_word;
use line_text::Failure;
use mips_codec::encode;
use mips_isa::Insn;
use mips_text::Slot;

/// Puts the words of an instruction at a place at the end. The fault is Undefined, Unaligned or OutOfRange.
#[tactic(auto, unfolding(crate::specs::Words::filled_words))]
pub(crate) fn push_draft(
    out: &mut Vec<u8>,
    names: &Names,
    place: u32,
    draft: Draft<'_>,
) -> Result<(), Failure<AsmWhy>>
    requires { place + 4 < 2 ^ 32 }
    ensures { Gives (λ _. out.new.items) result (onto out.old.items (draft_bytes names.now place (draft_seen draft.entry))) }
{
    let word = draft.word;
    match draft.filling {
        Filling::Whole => Ok(push_word(out, word)?),
        Filling::Filled(field, e) => {
            let bits = field_bits(names, field, place, e)?;
            Ok(push_word(out, word + bits)?)
        }
        Filling::Halves(e) => {
            // LUI of the high half and ORI of the low half, into one register.
            let value = defined(names, e)?;
            let rt = Slot::Rt.get(word);
            push_word(out, load_upper(rt, (value / (1 << 16)) as u16))?;
            Ok(push_word(out, or_half(rt, (value % (1 << 16)) as u16))?)
        }
    }
}

/// LUI.
#[tactic(auto, unfolding(mips_isa::specs::Encoding::form_of))]
fn load_upper(rt: u8, imm: u16) -> u32
    requires { rt < 32 }
    ensures { result ≡ word_of (Insn.Lui rt imm) }
{
    encoded(&Insn::Lui { rt, imm })
}

/// ORI of a register with itself.
#[tactic(auto, unfolding(mips_isa::specs::Encoding::form_of))]
fn or_half(rt: u8, imm: u16) -> u32
    requires { rt < 32 }
    ensures { result ≡ word_of (Insn.Ori rt rt imm) }
{
    encoded(&Insn::Ori { rt, rs: rt, imm })
}

/// The word of an instruction whose fields fit.
fn encoded(insn: &Insn) -> u32
    requires { IsEncodable insn.now }
    ensures { result ≡ word_of insn.now }
{
    match encode(insn) {
        Some(word) => word,
        None => unreachable!(),
    }
}
