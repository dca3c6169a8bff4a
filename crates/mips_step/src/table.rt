//! What each word does that neither loads nor stores (`docs/MACHINE.md`, "Effect"): a match on the opcode, with one on the
//! function of opcode 0 and one on the field `rt` of opcode 1, each in the order of the table of the encoding.
ghost use Rattle.std.specs.Prelude.{◌≡◌, ◌<◌, ◌%◌, ◌^◌, ◌==◌, ◌&&◌, None};
ghost use Rattle.mips_isa.specs.Encoding.{insn_of, regimm_of, special_of};
ghost use Rattle.mips_isa.specs.Fields.{imm_of, opcode_of, rd_of, rs_of, rt_of, sh_of, target_of};
ghost use Rattle.mips_isa.specs.Word.{sign16_of};
ghost use Rattle.mips_exec.specs.Access.{access};
ghost use Rattle.mips_exec.specs.Cpu.{branch_target, jump_target, reg};
ghost use Rattle.mips_exec.specs.declared.change.Change.TheVariants.{Jumps, JumpsAndLinks, Puts};
ghost use Rattle.mips_exec.specs.Effect.{effect};
ghost use Rattle.mips_step.specs.Live.{HasZero, joined};

use crate::arithmetic::{
    difference, is_at_most_zero, is_negative, product, quotient, signed_less, signed_product,
    signed_quotient, signed_shift, sum,
};
use crate::live::Live;
use mips_codec::{COP0, REGIMM, SPECIAL, function, imm, opcode, rd, rs, rt, sh, sign16, target};
use mips_exec::{Change, Exc, ExcCode};

/// The register that calls link through.
const RETURN_ADDRESS: u8 = 31;

/// What the register of bits 25:21 reads.
pub(crate) fn rs_value(live: &Live<'_>, word: u32) -> u32
    requires zero { HasZero live.now }
    ensures { result ≡ reg (joined live.now) (rs_of word) }
{
    live.reg(rs(word))
}

/// What the register of bits 20:16 reads.
pub(crate) fn rt_value(live: &Live<'_>, word: u32) -> u32
    requires zero { HasZero live.now }
    ensures { result ≡ reg (joined live.now) (rt_of word) }
{
    live.reg(rt(word))
}

/// The amount of a shift by the register of bits 25:21.
fn rs_shift(live: &Live<'_>, word: u32) -> u32
    requires zero { HasZero live.now }
    ensures { result ≡ reg (joined live.now) (rs_of word) % 32 }
{
    rs_value(live, word) % 32
}

/// Of the fields between opcode and function, all but `rs` are 0.
fn has_only_rs(word: u32) -> bool
    ensures { result ≡ (rt_of word == 0 && rd_of word == 0 && sh_of word == 0) }
{
    rt(word) == 0 && rd(word) == 0 && sh(word) == 0
}

/// Of the fields between opcode and function, all but `rd` are 0.
fn has_only_rd(word: u32) -> bool
    ensures { result ≡ (rs_of word == 0 && rt_of word == 0 && sh_of word == 0) }
{
    rs(word) == 0 && rt(word) == 0 && sh(word) == 0
}

/// Of the fields between opcode and function, all but `rs` and `rt` are 0.
fn has_only_rs_rt(word: u32) -> bool
    ensures { result ≡ (rd_of word == 0 && sh_of word == 0) }
{
    rd(word) == 0 && sh(word) == 0
}

/// The register of bits 15:11 takes the value.
fn puts_rd(word: u32, value: u32) -> Change
    ensures { result ≡ Puts (rd_of word) value }
{
    Change::Puts(rd(word), value)
}

/// Bits 15:0 as a word with its sign.
pub(crate) fn signed_imm(word: u32) -> u32
    ensures { result ≡ sign16_of (imm_of word) }
{
    sign16(imm(word))
}

/// The address after the delay slot of a branch.
fn branch_target(live: &Live<'_>, taken: bool, word: u32) -> u32
    ensures { result ≡ branch_target (joined live.now) taken (imm_of word) }
{
    if taken {
        live.pc
            .wrapping_add(4)
            .wrapping_add(signed_imm(word).wrapping_mul(4))
    } else {
        live.next.wrapping_add(4)
    }
}

/// A branch where `taken`.
fn branch(live: &Live<'_>, taken: bool, word: u32) -> Change
    ensures { result ≡ Jumps (branch_target (joined live.now) taken (imm_of word)) }
{
    Change::Jumps(branch_target(live, taken, word))
}

/// A branch where `taken`, which links in either case.
fn branch_and_link(live: &Live<'_>, taken: bool, word: u32) -> Change
    ensures { result ≡ JumpsAndLinks 31 (branch_target (joined live.now) taken (imm_of word)) }
{
    Change::JumpsAndLinks(RETURN_ADDRESS, branch_target(live, taken, word))
}

/// The address that a jump's 26 bits name.
fn jump_target(live: &Live<'_>, word: u32) -> u32
    ensures { result ≡ jump_target (joined live.now) (target_of word) }
{
    let region = live.pc.wrapping_add(4) >> 28;
    region * 0x1000_0000 + target(word) * 4
}

/// What a word of opcode 0 does, by its function.
#[tactic(auto, unfolding(mips_isa::specs::Encoding::special_of, mips_exec::specs::Effect::effect, mips_exec::specs::Access::access))]
#[inline(always)]
fn special(live: &Live<'_>, word: u32) -> Change
    requires zero { HasZero live.now }
    requires opcode { opcode_of word ≡ 0 }
    ensures value { result ≡ effect (special_of word) (joined live.now) 0 }
    ensures plain { access (special_of word) (joined live.now) ≡ None }
{
    match function(word) {
        0 if rs(word) == 0 => puts_rd(word, rt_value(live, word) << sh(word)),
        2 if rs(word) == 0 => puts_rd(word, rt_value(live, word) >> sh(word)),
        3 if rs(word) == 0 => puts_rd(
            word,
            signed_shift(rt_value(live, word), u32::from(sh(word))),
        ),
        4 if sh(word) == 0 => puts_rd(word, rt_value(live, word) << rs_shift(live, word)),
        6 if sh(word) == 0 => puts_rd(word, rt_value(live, word) >> rs_shift(live, word)),
        7 if sh(word) == 0 => puts_rd(
            word,
            signed_shift(rt_value(live, word), rs_shift(live, word)),
        ),
        8 if has_only_rs(word) => Change::Jumps(rs_value(live, word)),
        9 if rt(word) == 0 && sh(word) == 0 => Change::JumpsAndLinks(
            rd(word),
            rs_value(live, word),
        ),
        12 if live.slot() => Change::Raises(Exc::plain(ExcCode::Sys)),
        12 => Change::Calls,
        13 => Change::Raises(Exc::plain(ExcCode::Bp)),
        16 if has_only_rd(word) => puts_rd(word, live.hi()),
        17 if has_only_rs(word) => Change::PutsHiLo(rs_value(live, word), live.lo()),
        18 if has_only_rd(word) => puts_rd(word, live.lo()),
        19 if has_only_rs(word) => Change::PutsHiLo(live.hi(), rs_value(live, word)),
        24 if has_only_rs_rt(word) => signed_product(rs_value(live, word), rt_value(live, word)),
        25 if has_only_rs_rt(word) => product(rs_value(live, word), rt_value(live, word)),
        26 if has_only_rs_rt(word) => signed_quotient(rs_value(live, word), rt_value(live, word)),
        27 if has_only_rs_rt(word) => quotient(rs_value(live, word), rt_value(live, word)),
        32 if sh(word) == 0 => sum(rd(word), rs_value(live, word), rt_value(live, word)),
        33 if sh(word) == 0 => puts_rd(
            word,
            rs_value(live, word).wrapping_add(rt_value(live, word)),
        ),
        34 if sh(word) == 0 => difference(rd(word), rs_value(live, word), rt_value(live, word)),
        35 if sh(word) == 0 => puts_rd(
            word,
            rs_value(live, word).wrapping_sub(rt_value(live, word)),
        ),
        36 if sh(word) == 0 => puts_rd(word, rs_value(live, word) & rt_value(live, word)),
        37 if sh(word) == 0 => puts_rd(word, rs_value(live, word) | rt_value(live, word)),
        38 if sh(word) == 0 => puts_rd(word, rs_value(live, word) ^ rt_value(live, word)),
        39 if sh(word) == 0 => puts_rd(word, !(rs_value(live, word) | rt_value(live, word))),
        42 if sh(word) == 0 => puts_rd(
            word,
            signed_less(rs_value(live, word), rt_value(live, word)),
        ),
        43 if sh(word) == 0 => puts_rd(
            word,
            u32::from(rs_value(live, word) < rt_value(live, word)),
        ),
        _ => Change::Raises(Exc::plain(ExcCode::Ri)),
    }
}

/// What a word of opcode 1 does, by its field `rt`.
#[tactic(auto, unfolding(mips_isa::specs::Encoding::regimm_of, mips_exec::specs::Effect::effect, mips_exec::specs::Access::access))]
#[inline(always)]
fn regimm(live: &Live<'_>, word: u32) -> Change
    requires zero { HasZero live.now }
    requires opcode { opcode_of word ≡ 1 }
    ensures value { result ≡ effect (regimm_of word) (joined live.now) 0 }
    ensures plain { access (regimm_of word) (joined live.now) ≡ None }
{
    let is_negative = is_negative(rs_value(live, word));
    match rt(word) {
        0 => branch(live, is_negative, word),
        1 => branch(live, !is_negative, word),
        16 => branch_and_link(live, is_negative, word),
        17 => branch_and_link(live, !is_negative, word),
        _ => Change::Raises(Exc::plain(ExcCode::Ri)),
    }
}

/// The change of a word below 2^31, which neither loads nor stores, by its opcode.
#[tactic(auto, using(crate::proofs::System::system_effect, crate::proofs::System::system_access), unfolding(mips_isa::specs::Encoding::insn_of, mips_exec::specs::Effect::effect, mips_exec::specs::Access::access))]
#[inline(always)]
pub(crate) fn change_without_access(live: &Live<'_>, word: u32) -> Change
    requires zero { HasZero live.now }
    requires word { word < 2 ^ 31 }
    ensures value { result ≡ effect (insn_of word) (joined live.now) 0 }
    ensures plain { access (insn_of word) (joined live.now) ≡ None }
{
    match opcode(word) {
        SPECIAL => special(live, word),
        REGIMM => regimm(live, word),
        2 => Change::Jumps(jump_target(live, word)),
        3 => Change::JumpsAndLinks(RETURN_ADDRESS, jump_target(live, word)),
        4 => branch(live, rs_value(live, word) == rt_value(live, word), word),
        5 => branch(live, rs_value(live, word) != rt_value(live, word), word),
        6 if rt(word) == 0 => branch(live, is_at_most_zero(rs_value(live, word)), word),
        7 if rt(word) == 0 => branch(live, !is_at_most_zero(rs_value(live, word)), word),
        8 => sum(rt(word), rs_value(live, word), signed_imm(word)),
        9 => Change::Puts(
            rt(word),
            rs_value(live, word).wrapping_add(signed_imm(word)),
        ),
        10 => Change::Puts(
            rt(word),
            signed_less(rs_value(live, word), signed_imm(word)),
        ),
        11 => Change::Puts(rt(word), u32::from(rs_value(live, word) < signed_imm(word))),
        12 => Change::Puts(rt(word), rs_value(live, word) & u32::from(imm(word))),
        13 => Change::Puts(rt(word), rs_value(live, word) | u32::from(imm(word))),
        14 => Change::Puts(rt(word), rs_value(live, word) ^ u32::from(imm(word))),
        15 if rs(word) == 0 => Change::Puts(rt(word), u32::from(imm(word)) << 16),
        COP0 => Change::Raises(Exc::unusable(0)),
        17..=19 => Change::Raises(Exc::unusable(opcode(word) % 4)),
        _ => Change::Raises(Exc::plain(ExcCode::Ri)),
    }
}
