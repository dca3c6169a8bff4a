//! What is found in, and done to, the slots as a list.
ghost use Rattle.std.specs.Prelude.{◌≡◌, ◌<◌, ◌≤◌, All, IfSome, length, map};
ghost use Rattle.std.specs.Option.{option_map};
ghost use Rattle.aegis_limits.specs.Limits.{most_slots, environment_numbers};
ghost use Rattle.world_model.specs.Book.{first_turn, has_part, own_hold, hold_without};
ghost use Rattle.slot_vector.specs.Slices.{IsNumbered, bit, hold_at, mask_of};

use aegis_limits::MOST_SLOTS;
use arrayvec::ArrayVec;
use world_model::{Hold, Turn};

/// The slots of a vector.
pub(crate) type Row = ArrayVec<Option<Hold>, MOST_SLOTS>;

/// The hold of the slot at this place; past the last there is none.
pub(crate) fn hold_at(slots: &[Option<Hold>], place: usize) -> Option<Hold>
    ensures hold { result ≡ hold_at slots.now place }
    ensures numbered { All IsNumbered slots.now → IsNumbered result }
{
    *slots.get(place)?
}

/// The turn in the first slot after the place, all around, that has a holder.
pub(crate) fn first_turn(slots: &[Option<Hold>], place: usize) -> Option<Turn>
    requires count { length slots.now ≤ most_slots }
    requires within { place < length slots.now }
    requires numbered { All IsNumbered slots.now }
    ensures turn { result ≡ first_turn (hold_at slots.now) (length slots.now) place (length slots.now) }
    ensures within { IfSome result (λ t. t.slot < length slots.now) }
    ensures numbered { IfSome result (λ t. t.env < environment_numbers) }
{
    let mut slot = place;
    let mut tries = slots.len();
    while tries > 0 {
        slot = (slot + 1) % slots.len();
        if let Some(hold) = hold_at(slots, slot) {
            return Some(Turn {
                slot: slot as u32,
                env: hold.holder,
            });
        }
        tries -= 1;
    }
    None
}

/// The slots at the start, each held by its owner.
pub(crate) fn own_holds(owners: &[Option<u8>]) -> Row
    requires count { length owners.now ≤ most_slots }
    requires owners { All (λ owner. IfSome owner (λ e. e < environment_numbers)) owners.now }
    ensures holds { result.items ≡ map (option_map own_hold) owners.now }
    ensures numbered { All IsNumbered result.items }
{
    let mut slots = ArrayVec::new();
    for owner in owners {
        slots.push(owner.map(Hold::own));
    }
    slots
}

/// 1 where the environment owns or holds the slot, else 0.
fn part_bit(slot: Option<Hold>, env: u8) -> u64
    ensures bit { result ≡ bit (has_part env slot) }
    ensures most { result ≤ 1 }
{
    match slot {
        Some(hold) if hold.has_part(env) => 1,
        _ => 0,
    }
}

/// A bit for each slot that the environment owns or holds, the lowest for the first.
pub(crate) fn mask_of(slots: &[Option<Hold>], env: u8) -> u64
    requires { length slots.now ≤ most_slots }
    ensures { result ≡ mask_of env slots.now }
{
    let mut mask = 0;
    let mut left = slots.len();
    while left > 0 {
        left -= 1;
        mask = mask * 2 + part_bit(slots[left], env);
    }
    mask
}

/// The slot once the environment is gone.
fn hold_without(slot: Option<Hold>, env: u8) -> Option<Hold>
    ensures { result ≡ hold_without env slot }
{
    slot?.without(env)
}

/// Empties each slot that the environment owns, and gives back each that it holds for another.
pub(crate) fn release(slots: &mut [Option<Hold>], env: u8)
    ensures released { slots.new ≡ map (hold_without env) slots.old }
    ensures numbered { All IsNumbered slots.old → All IsNumbered slots.new }
{
    for slot in slots.iter_mut() {
        *slot = hold_without(*slot, env);
    }
}
