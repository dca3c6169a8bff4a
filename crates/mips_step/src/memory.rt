//! Memory as a step asks it.
ghost use Rattle.std.specs.Prelude.{◌≡◌, ◌≢◌, ◌+◌, ◌%◌, ◌<◌, ◌≤◌, ℕ, List, OnOk, OnErr};
ghost use Rattle.mips_exec.specs.Access.{IsSpot, low_bytes, place_of};
ghost use Rattle.mips_exec.specs.declared.reach.Access.TheVariants.{Load, Store};
ghost use Rattle.mips_exec.specs.Step.{Answers, without_value};
ghost use Rattle.mips_step.specs.WordStep.{access_answer};

use mips_exec::{Exc, ExcCode, Spot};

/// Memory as a step asks it, by virtual addresses. It tests range and mapping; the step has tested the
/// alignment, and asks for no bytes of two aligned words. What it answers to a fetch or load stays the
/// same until something is stored.
pub trait Bus {
    /// What memory answers now.
    ghost answers: { Self → Answers };

    /// Nothing was stored from the first state to the second.
    ghost Kept: { Self → Self → Type 0 };

    /// These bytes were stored at this address, and nothing else.
    ghost Stored: { Self → ℕ → List ℕ → Self → Type 0 };

    /// The word at `va`, or the exception that its fetch raises.
    fn fetch(&mut self, va: u32) -> Result<u32, Exc>
        requires { va % 4 ≡ 0 }
        ensures answer { result ≡ (answers self.old).fetch va }
        ensures kept { Kept self.old self.new };

    /// The `width` bytes (1, 2 or 4) from `va` on as a number, the lowest first.
    fn load(&mut self, va: u32, width: u8) -> Result<u32, Exc>
        requires some { 0 < width }
        requires whole { width ≢ 3 }
        requires within { va % 4 + width ≤ 4 }
        ensures answer { result ≡ (answers self.old).load va width }
        ensures kept { Kept self.old self.new };

    /// Stores the `width` low bytes (1 to 4) of `value` from `va` on, the lowest first.
    fn store(&mut self, va: u32, width: u8, value: u32) -> Result<(), Exc>
        requires some { 0 < width }
        requires within { va % 4 + width ≤ 4 }
        ensures answer { result ≡ (answers self.old).store va width }
        ensures stored { OnOk result (Stored self.old va (low_bytes width value) self.new) }
        ensures kept { OnErr result (Kept self.old self.new) };

    ghost keeps_itself: { (b : Self) → Kept b b };

    ghost keeps_on: { (a : Self) (b : Self) (c : Self) → Kept a b → Kept b c → Kept a c };

    /// Where nothing was stored, memory answers as before.
    ghost keeps_answers: { (a : Self) (b : Self) → Kept a b → answers a ≡ answers b };

    /// A store counts from any earlier state since which nothing was stored.
    ghost stores_on: { (a : Self) (b : Self) (c : Self) (address : ℕ) (bytes : List ℕ) → Kept a b → Stored b address bytes c → Stored a address bytes c };
}

/// What memory answers a load, or the exception at the address that the instruction names.
#[inline(always)]
pub(crate) fn load<B: Bus>(bus: &mut B, spot: Spot) -> Result<u32, Exc>
    requires spot { IsSpot spot }
    requires whole { spot.width ≢ 3 }
    ensures answer { result ≡ access_answer (B.answers bus.old) (Load spot) }
    ensures kept { B.Kept bus.old bus.new }
{
    if !spot.is_aligned() {
        return Err(Exc::plain(ExcCode::Adel).at(spot.address));
    }
    match bus.load(spot.place(), spot.width) {
        Ok(loaded) => Ok(loaded),
        Err(exc) => Err(exc.at(spot.address)),
    }
}

/// Stores the low bytes of a value, or answers the exception at the address that the instruction names.
#[inline(always)]
pub(crate) fn store<B: Bus>(bus: &mut B, spot: Spot, value: u32) -> Result<(), Exc>
    requires spot { IsSpot spot }
    ensures answer { without_value result ≡ access_answer (B.answers bus.old) (Store spot value) }
    ensures stored { OnOk result (B.Stored bus.old (place_of spot) (low_bytes spot.width value) bus.new) }
    ensures kept { OnErr result (B.Kept bus.old bus.new) }
{
    if !spot.is_aligned() {
        return Err(Exc::plain(ExcCode::Ades).at(spot.address));
    }
    match bus.store(spot.place(), spot.width, value) {
        Ok(()) => Ok(()),
        Err(exc) => Err(exc.at(spot.address)),
    }
}
