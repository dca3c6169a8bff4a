//! What becomes of the registers by what an instruction does.
ghost use Rattle.std.specs.Prelude.{◌≡◌};
ghost use Rattle.mips_exec.specs.Effect.{changed};
ghost use Rattle.mips_exec.specs.Step.{report_of};
ghost use Rattle.mips_step.specs.Live.{HasZero, IsSameLive, joined};
ghost use Rattle.mips_step.specs.WordStep.{is_retired};

use crate::live::Live;
use mips_exec::{Change, Outcome};

/// Does what an instruction does, and answers whether it retires. A call and an exception leave the registers.
#[inline(always)]
pub(crate) fn retire(live: &mut Live<'_>, change: Change) -> bool
    requires { HasZero live.old }
    ensures same { IsSameLive live.old live.new }
    ensures zero { HasZero live.new }
    ensures cpu { joined live.new ≡ changed (joined live.old) change }
    ensures retired { result ≡ is_retired (report_of change) }
{
    match change {
        Change::Puts(n, value) => {
            live.set_reg(n, value);
            live.advance();
        }
        Change::PutsHiLo(high, low) => {
            live.set_hi_lo(high, low);
            live.advance();
        }
        Change::Passes => live.advance(),
        Change::Jumps(target) => live.jump(target),
        Change::JumpsAndLinks(n, target) => {
            let back = live.pc.wrapping_add(8);
            live.jump(target);
            live.set_reg(n, back);
        }
        Change::Calls | Change::Raises(_) => return false,
    }
    true
}

/// The same, which answers how the step ends.
#[inline(always)]
pub(crate) fn apply(live: &mut Live<'_>, change: Change) -> Outcome
    requires { HasZero live.old }
    ensures same { IsSameLive live.old live.new }
    ensures zero { HasZero live.new }
    ensures cpu { joined live.new ≡ changed (joined live.old) change }
    ensures outcome { result ≡ report_of change }
{
    match change {
        Change::Calls => Outcome::Call,
        Change::Raises(exc) => Outcome::Trap(exc),
        _ => {
            retire(live, change);
            Outcome::Retired
        }
    }
}
