//! The rows of the ledger, a line each.
ghost use Rattle.std.specs.Prelude.{◌≡◌, ◌++◌, [], ◌∷◌, Some, OnOk};
ghost use Rattle.std.specs.List.{flat_map};
ghost use Rattle.kernel_journal.specs.declared.row.Row.TheVariants.{Asked, Over, Own, Take, Unclaimed};
ghost use Rattle.run_report.specs.Report.{numbers_line, row_line};

use crate::words::{env, number};
use aegis_limits::OutOfMemory;
use kernel_journal::Row;
use line_text::{Word, push_line};

/// Appends the rows.
pub(crate) fn push_rows(out: &mut Vec<u8>, rows: &[Row]) -> Result<(), OutOfMemory>
    ensures { OnOk result (out.new.items ≡ out.old.items ++ flat_map row_line rows.now) }
{
    for row in rows {
        push_row(out, *row)?;
    }
    Ok(())
}

/// Appends the row of what befell an environment in a slot.
#[tactic(auto, unfolding(crate::specs::Report::numbers_line, line_text::specs::WrittenLine::line_of))]
fn push_turn(
    out: &mut Vec<u8>,
    name: &[u8],
    time: u32,
    slot: u32,
    who: u8,
) -> Result<(), OutOfMemory>
    ensures { OnOk result (out.new.items ≡ out.old.items ++ numbers_line name.now (Some time ∷ Some slot ∷ Some who ∷ [])) }
{
    push_line(out, name, &[number(time), number(slot), env(who)])
}

/// Appends the row of what went from one environment to another in a slot.
#[tactic(auto, unfolding(crate::specs::Report::numbers_line, line_text::specs::WrittenLine::line_of))]
fn push_move(
    out: &mut Vec<u8>,
    name: &[u8],
    time: u32,
    slot: u32,
    from: u8,
    to: u8,
) -> Result<(), OutOfMemory>
    ensures { OnOk result (out.new.items ≡ out.old.items ++ numbers_line name.now (Some time ∷ Some slot ∷ Some from ∷ Some to ∷ [])) }
{
    push_line(out, name, &[number(time), number(slot), env(from), env(to)])
}

/// Appends the row of who has a slot.
#[tactic(auto, unfolding(crate::specs::Report::numbers_line, line_text::specs::WrittenLine::line_of))]
fn push_own(
    out: &mut Vec<u8>,
    time: u32,
    slot: u32,
    owner: Option<u8>,
    holder: Option<u8>,
) -> Result<(), OutOfMemory>
    ensures { OnOk result (out.new.items ≡ out.old.items ++ row_line (Own time slot owner holder)) }
{
    let owner = owner.map_or(Word::Dash, env);
    let holder = holder.map_or(Word::Dash, env);
    push_line(out, b"own", &[number(time), number(slot), owner, holder])
}

/// Appends the row of a quantum of excess.
#[tactic(auto, unfolding(crate::specs::Report::numbers_line, line_text::specs::WrittenLine::line_of))]
fn push_over(
    out: &mut Vec<u8>,
    time: u32,
    slot: u32,
    who: u8,
    excess: u32,
) -> Result<(), OutOfMemory>
    ensures { OnOk result (out.new.items ≡ out.old.items ++ row_line (Over time slot who excess)) }
{
    let numbers = [number(time), number(slot), env(who), number(excess)];
    push_line(out, b"over", &numbers)
}

/// Appends the row of what is asked of an environment.
#[tactic(auto, unfolding(crate::specs::Report::numbers_line, line_text::specs::WrittenLine::line_of))]
fn push_asked(
    out: &mut Vec<u8>,
    time: u32,
    who: u8,
    outstanding: u32,
    deadline: u32,
) -> Result<(), OutOfMemory>
    ensures { OnOk result (out.new.items ≡ out.old.items ++ row_line (Asked time who outstanding deadline)) }
{
    let deadline = number(deadline);
    let numbers = [number(time), env(who), number(outstanding), deadline];
    push_line(out, b"asked", &numbers)
}

/// Appends the row of a page that an environment lost.
#[tactic(auto, unfolding(crate::specs::Report::numbers_line, line_text::specs::WrittenLine::line_of))]
fn push_take(
    out: &mut Vec<u8>,
    time: u32,
    who: u8,
    page: u32,
    backup: Option<u32>,
) -> Result<(), OutOfMemory>
    ensures { OnOk result (out.new.items ≡ out.old.items ++ row_line (Take time who page backup)) }
{
    let backup = backup.map_or(Word::Dash, number);
    let numbers = [number(time), env(who), number(page), backup];
    push_line(out, b"take", &numbers)
}

/// Appends the row of a packet that nobody claimed.
#[tactic(auto, unfolding(crate::specs::Report::numbers_line, line_text::specs::WrittenLine::line_of))]
fn push_unclaimed(out: &mut Vec<u8>, time: u32, length: u32) -> Result<(), OutOfMemory>
    ensures { OnOk result (out.new.items ≡ out.old.items ++ row_line (Unclaimed time length)) }
{
    push_line(out, b"drop", &[number(time), number(length)])
}

/// Appends a row: its time, and its numbers in their order.
fn push_row(out: &mut Vec<u8>, row: Row) -> Result<(), OutOfMemory>
    ensures { OnOk result (out.new.items ≡ out.old.items ++ row_line row) }
{
    let time = row.time();
    match row {
        Row::Own {
            slot,
            owner,
            holder,
            ..
        } => push_own(out, time, slot, owner, holder),
        Row::Run { slot, env, .. } => push_turn(out, b"run", time, slot, env),
        Row::Pay { slot, env, .. } => push_turn(out, b"pay", time, slot, env),
        Row::Give { slot, from, to, .. } => push_move(out, b"give", time, slot, from, to),
        Row::Async { slot, from, to, .. } => push_move(out, b"async", time, slot, from, to),
        Row::Sync { slot, from, to, .. } => push_move(out, b"sync", time, slot, from, to),
        Row::End { slot, env, .. } => push_turn(out, b"end", time, slot, env),
        Row::Over {
            slot,
            env,
            excess,
            ..
        } => push_over(out, time, slot, env, excess),
        Row::Stop { slot, env, .. } => push_turn(out, b"stop", time, slot, env),
        Row::Dead { slot, env, .. } => push_turn(out, b"dead", time, slot, env),
        Row::Asked {
            env,
            outstanding,
            deadline,
            ..
        } => push_asked(out, time, env, outstanding, deadline),
        Row::Take {
            env,
            page,
            backup,
            ..
        } => push_take(out, time, env, page, backup),
        Row::Unclaimed { length, .. } => push_unclaimed(out, time, length),
    }
}
