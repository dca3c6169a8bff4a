//! A row that is read from its name and numbers.
ghost use Rattle.std.specs.Prelude.{◌≡◌, ◌∷◌, []};
ghost use Rattle.kernel_journal.specs.RowTable.{AreNumbersWithin, ReadRowsAreWithin, RowsAreReadBack, are_paired, are_within, asked_of, each_has_kind, gift_of, has_form, has_kind, have_kinds, is_within, kinds_of, own_of, over_of, row_by, row_of, row_with, take_of, turn_of, unclaimed_of};
ghost use Rattle.kernel_journal.specs.declared.table.NumberKind.TheVariants.{Env, EnvOrNone, Excess, Number, NumberOrNone, Slot, Time};

use crate::row::Row;
use crate::table::{NumberKind, RowName};

/// Why a name and numbers are no row.
#[derive(Clone, Copy)]
pub enum RowFault {
    /// No row is called so, or it has other numbers: more or fewer, or one is there that may not be, or isn't that must be.
    Form,
    /// A number passes the limit of its kind.
    Range,
}

impl Row {
    /// The row that a name and numbers are. A fault of form comes before one of range.
    #[tactic(auto, unfolding(crate::specs::RowTable::row_of))]
    pub fn of(text: &[u8], numbers: &[Option<u64>]) -> Result<Row, RowFault>
        ensures value { result ≡ row_of text.now numbers.now }
    {
        let Some(name) = RowName::of(text) else {
            return Err(RowFault::Form);
        };
        row_by(name, numbers)
    }
}

/// The row of this name with these numbers.
fn row_by(name: RowName, numbers: &[Option<u64>]) -> Result<Row, RowFault>
    ensures { result ≡ row_by name numbers.now }
{
    if !has_form(name, numbers) {
        return Err(RowFault::Form);
    }
    if !are_within(name.kinds(), numbers) {
        return Err(RowFault::Range);
    }
    row_with(name, numbers).ok_or(RowFault::Form)
}

/// Whether numbers have this row's form.
fn has_form(name: RowName, numbers: &[Option<u64>]) -> bool
    ensures { result ≡ has_form name numbers.now }
{
    have_kinds(name.kinds(), numbers) && are_paired(name, numbers)
}

/// Whether numbers are as many as these kinds, and each is there unless there may be none.
fn have_kinds(kinds: &[NumberKind], numbers: &[Option<u64>]) -> bool
    ensures { result ≡ have_kinds kinds.now numbers.now }
{
    numbers.len() == kinds.len() && each_has_kind(kinds, numbers)
}

/// Whether each number is there, unless there may be none of its kind.
fn each_has_kind(kinds: &[NumberKind], numbers: &[Option<u64>]) -> bool
    ensures { result ≡ each_has_kind kinds.now numbers.now }
{
    kinds
        .iter()
        .zip(numbers)
        .all(|(kind, number)| has_kind(*kind, *number))
}

/// Whether a number is there, unless there may be none.
fn has_kind(kind: NumberKind, number: Option<u64>) -> bool
    ensures { result ≡ has_kind kind number }
{
    number.is_some() || kind.may_be_none()
}

/// Whether a slot's owner and holder are both there, or neither is.
fn are_paired(name: RowName, numbers: &[Option<u64>]) -> bool
    ensures { result ≡ are_paired name numbers.now }
{
    match (name, numbers) {
        (RowName::Own, [_, _, owner, holder]) => owner.is_some() == holder.is_some(),
        _ => true,
    }
}

/// Whether each number is within the limit of its kind.
fn are_within(kinds: &[NumberKind], numbers: &[Option<u64>]) -> bool
    ensures { result ≡ are_within kinds.now numbers.now }
{
    kinds
        .iter()
        .zip(numbers)
        .all(|(kind, number)| is_within(*kind, *number))
}

/// Whether a number is within the limit of its kind.
fn is_within(kind: NumberKind, number: Option<u64>) -> bool
    ensures { result ≡ is_within kind number }
{
    match number {
        None => true,
        Some(number) => number <= kind.most(),
    }
}

/// The row of this name with numbers that are within their limits, if they have its form.
fn row_with(name: RowName, numbers: &[Option<u64>]) -> Option<Row>
    requires { AreNumbersWithin (kinds_of name) numbers.now }
    ensures { result ≡ row_with name numbers.now }
{
    match name {
        RowName::Own => own(numbers),
        RowName::Run => turn(numbers).map(|(time, slot, env)| Row::Run { time, slot, env }),
        RowName::Pay => turn(numbers).map(|(time, slot, env)| Row::Pay { time, slot, env }),
        RowName::Give => gift(numbers).map(|(time, slot, from, to)| Row::Give {
            time,
            slot,
            from,
            to,
        }),
        RowName::Async => gift(numbers).map(|(time, slot, from, to)| Row::Async {
            time,
            slot,
            from,
            to,
        }),
        RowName::Sync => gift(numbers).map(|(time, slot, from, to)| Row::Sync {
            time,
            slot,
            from,
            to,
        }),
        RowName::End => turn(numbers).map(|(time, slot, env)| Row::End { time, slot, env }),
        RowName::Over => over(numbers),
        RowName::Stop => turn(numbers).map(|(time, slot, env)| Row::Stop { time, slot, env }),
        RowName::Dead => turn(numbers).map(|(time, slot, env)| Row::Dead { time, slot, env }),
        RowName::Asked => asked(numbers),
        RowName::Take => take(numbers),
        RowName::Unclaimed => unclaimed(numbers),
    }
}

/// A time, a slot and an environment.
fn turn(numbers: &[Option<u64>]) -> Option<(u32, u32, u8)>
    requires { AreNumbersWithin (Time ∷ Slot ∷ Env ∷ []) numbers.now }
    ensures { result ≡ turn_of numbers.now }
{
    let [Some(time), Some(slot), Some(env)] = *numbers else {
        return None;
    };
    Some((time as u32, slot as u32, env as u8))
}

/// A time, a slot and two environments.
fn gift(numbers: &[Option<u64>]) -> Option<(u32, u32, u8, u8)>
    requires { AreNumbersWithin (Time ∷ Slot ∷ Env ∷ Env ∷ []) numbers.now }
    ensures { result ≡ gift_of numbers.now }
{
    let [Some(time), Some(slot), Some(from), Some(to)] = *numbers else {
        return None;
    };
    Some((time as u32, slot as u32, from as u8, to as u8))
}

fn own(numbers: &[Option<u64>]) -> Option<Row>
    requires { AreNumbersWithin (Time ∷ Slot ∷ EnvOrNone ∷ EnvOrNone ∷ []) numbers.now }
    ensures { result ≡ own_of numbers.now }
{
    let [Some(time), Some(slot), owner, holder] = *numbers else {
        return None;
    };
    Some(Row::Own {
        time: time as u32,
        slot: slot as u32,
        owner: owner.map(|env| env as u8),
        holder: holder.map(|env| env as u8),
    })
}

fn over(numbers: &[Option<u64>]) -> Option<Row>
    requires { AreNumbersWithin (Time ∷ Slot ∷ Env ∷ Excess ∷ []) numbers.now }
    ensures { result ≡ over_of numbers.now }
{
    let [Some(time), Some(slot), Some(env), Some(excess)] = *numbers else {
        return None;
    };
    Some(Row::Over {
        time: time as u32,
        slot: slot as u32,
        env: env as u8,
        excess: excess as u32,
    })
}

fn asked(numbers: &[Option<u64>]) -> Option<Row>
    requires { AreNumbersWithin (Time ∷ Env ∷ Number ∷ Number ∷ []) numbers.now }
    ensures { result ≡ asked_of numbers.now }
{
    let [Some(time), Some(env), Some(outstanding), Some(deadline)] = *numbers else {
        return None;
    };
    Some(Row::Asked {
        time: time as u32,
        env: env as u8,
        outstanding: outstanding as u32,
        deadline: deadline as u32,
    })
}

fn take(numbers: &[Option<u64>]) -> Option<Row>
    requires { AreNumbersWithin (Time ∷ Env ∷ Number ∷ NumberOrNone ∷ []) numbers.now }
    ensures { result ≡ take_of numbers.now }
{
    let [Some(time), Some(env), Some(page), backup] = *numbers else {
        return None;
    };
    Some(Row::Take {
        time: time as u32,
        env: env as u8,
        page: page as u32,
        backup: backup.map(|page| page as u32),
    })
}

fn unclaimed(numbers: &[Option<u64>]) -> Option<Row>
    requires { AreNumbersWithin (Time ∷ Number ∷ []) numbers.now }
    ensures { result ≡ unclaimed_of numbers.now }
{
    let [Some(time), Some(length)] = *numbers else {
        return None;
    };
    Some(Row::Unclaimed {
        time: time as u32,
        length: length as u32,
    })
}

/// Law: a row is read back from its own name and numbers, and the numbers of each row that is read are within their limits.
pub fn law_rows_are_read_back()
    ensures back { RowsAreReadBack }
    ensures within { ReadRowsAreWithin }
{}
