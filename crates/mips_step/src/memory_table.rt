//! What each word does that loads or stores (`docs/MACHINE.md`, "Effect"): a match on the opcode, in the order of the table
//! of the encoding.
ghost use Rattle.std.specs.Prelude.{◌≡◌, ◌≤◌, ◌^◌, true};
ghost use Rattle.mips_isa.specs.Encoding.{insn_of};
ghost use Rattle.mips_exec.specs.Access.{access};
ghost use Rattle.mips_exec.specs.Step.{Wrote, write_after};
ghost use Rattle.mips_step.specs.Live.{HasZero, joined};
ghost use Rattle.mips_step.specs.WordStep.{fetched_step, moves_word, step_of_change};

use crate::arithmetic::{extend_byte, extend_half};
use crate::live::Live;
use crate::memory::{Bus, load, store};
use crate::table::{rs_value, rt_value, signed_imm};
use mips_codec::{merge_left, merge_right, opcode, rt};
use mips_exec::{Change, Exc, ExcCode, Spot};

/// The opcode of LW.
const LOAD_WORD: u8 = 35;

/// The opcode of SW.
const STORE_WORD: u8 = 43;

/// Whether the word loads or stores a whole aligned word: LW or SW.
#[inline(always)]
pub fn moves_word(word: u32) -> bool
    ensures { result ≡ moves_word word }
{
    opcode(word) == LOAD_WORD || opcode(word) == STORE_WORD
}

/// The change of LW or SW, once memory has answered, or what the access raises.
#[tactic(auto, unfolding(mips_isa::specs::Encoding::insn_of, mips_exec::specs::Effect::effect, mips_exec::specs::Access::access))]
#[inline(always)]
pub(crate) fn change_after_word<B: Bus>(
    live: &Live<'_>,
    bus: &mut B,
    word: u32,
) -> Result<Change, Exc>
    requires word { moves_word word ≡ true }
    requires zero { HasZero live.now }
    ensures step { step_of_change (joined live.now) (access (insn_of word) (joined live.now)) result ≡ fetched_step (B.answers bus.old) (joined live.now) word }
    ensures memory { Wrote B.Kept B.Stored bus.old (write_after (fetched_step (B.answers bus.old) (joined live.now) word)) bus.new }
{
    let spot = Spot::at(rs_value(live, word).wrapping_add(signed_imm(word)), 4);
    if opcode(word) == LOAD_WORD {
        return Ok(Change::Puts(rt(word), load(bus, spot)?));
    }
    store(bus, spot, rt_value(live, word))?;
    Ok(Change::Passes)
}

/// The change of a word from 2^31 on, once memory has answered its load or store, or what the access raises.
#[tactic(auto, unfolding(mips_isa::specs::Encoding::insn_of, mips_exec::specs::Effect::effect, mips_exec::specs::Access::access))]
#[inline(never)]
pub(crate) fn change_after_access<B: Bus>(
    live: &Live<'_>,
    bus: &mut B,
    word: u32,
) -> Result<Change, Exc>
    requires word { 2 ^ 31 ≤ word }
    requires zero { HasZero live.now }
    ensures step { step_of_change (joined live.now) (access (insn_of word) (joined live.now)) result ≡ fetched_step (B.answers bus.old) (joined live.now) word }
    ensures memory { Wrote B.Kept B.Stored bus.old (write_after (fetched_step (B.answers bus.old) (joined live.now) word)) bus.new }
{
    let address = rs_value(live, word).wrapping_add(signed_imm(word));
    Ok(match opcode(word) {
        32 => Change::Puts(rt(word), extend_byte(load(bus, Spot::at(address, 1))?)),
        33 => Change::Puts(rt(word), extend_half(load(bus, Spot::at(address, 2))?)),
        34 => Change::Puts(
            rt(word),
            merge_left(
                load(bus, Spot::below(address, 4))?,
                rt_value(live, word),
                address % 4,
            ),
        ),
        35 => Change::Puts(rt(word), load(bus, Spot::at(address, 4))?),
        36 => Change::Puts(rt(word), load(bus, Spot::at(address, 1))?),
        37 => Change::Puts(rt(word), load(bus, Spot::at(address, 2))?),
        38 => Change::Puts(
            rt(word),
            merge_right(
                load(bus, Spot::below(address, 4))?,
                rt_value(live, word),
                address % 4,
            ),
        ),
        40 => {
            store(bus, Spot::at(address, 1), rt_value(live, word))?;
            Change::Passes
        }
        41 => {
            store(bus, Spot::at(address, 2), rt_value(live, word))?;
            Change::Passes
        }
        42 => {
            store(
                bus,
                Spot::below(address, (address % 4 + 1) as u8),
                rt_value(live, word) >> (24 - 8 * (address % 4)),
            )?;
            Change::Passes
        }
        43 => {
            store(bus, Spot::at(address, 4), rt_value(live, word))?;
            Change::Passes
        }
        46 => {
            store(
                bus,
                Spot::at(address, (4 - address % 4) as u8),
                rt_value(live, word),
            )?;
            Change::Passes
        }
        49..=51 | 57..=59 => Change::Raises(Exc::unusable(opcode(word) % 4)),
        _ => Change::Raises(Exc::plain(ExcCode::Ri)),
    })
}
