//! The parts of a board before it runs.
ghost use Rattle.std.specs.Prelude.{◌≡◌, ◌≤◌, ◌<◌, ◌+◌, IfOk, length, replicate};
ghost use Rattle.std.specs.Option.{option_map};
ghost use Rattle.aegis_limits.specs.Limits.{least_pages, most_pages, most_slots};
ghost use Rattle.aegis_limits.specs.VersionLimits.{most_environments_of};
ghost use Rattle.bind_book.specs.Stripe.{empty_stripes};
ghost use Rattle.frame_store.specs.Pages.{zeroed};
ghost use Rattle.page_book.specs.declared.row.PageRow.TheVariants.{Free};
ghost use Rattle.world_model.specs.Book.{own_hold};
ghost use Rattle.run_model.specs.Boot.{own_row, own_rows};
ghost use Rattle.board_model.specs.Doing.{with_rows};

use aegis_limits::{OutOfMemory, Version};
use bind_book::Bindings;
use frame_store::Frames;
use kernel_journal::{Journal, Row};
use page_book::Pages;
use std::alloc::Global;

/// Writes the row of a slot, where it has an owner.
fn push_owner(journal: &mut Journal, slot: u32, owner: Option<u8>)
    requires { 0 < journal.old.spare }
    ensures rows { journal.new ≡ with_rows journal.old (own_row slot (option_map own_hold owner)) }
    ensures room { journal.old.spare ≤ journal.new.spare + 1 }
{
    if owner.is_some() {
        journal.push(Row::Own {
            time: 0,
            slot,
            owner,
            holder: owner,
        });
    }
}

/// Writes a row for each slot that has an owner.
fn push_owners(journal: &mut Journal, slots: &[Option<u8>])
    requires room { length slots.now ≤ journal.old.spare }
    requires count { length slots.now ≤ most_slots }
    ensures { journal.new ≡ with_rows journal.old (own_rows slots.now (length slots.now)) }
{
    for (slot, owner) in slots.iter().enumerate() {
        push_owner(journal, slot as u32, *owner);
    }
}

/// The ledger at boot: who owns each slot.
pub fn boot_journal(alloc: Global, slots: &[Option<u8>]) -> Result<Journal, OutOfMemory>
    requires { length slots.now ≤ most_slots }
    ensures { IfOk result (λ j. j.rows ≡ own_rows slots.now (length slots.now)) }
{
    let mut journal = Journal::new(alloc);
    journal.room(slots.len() as u32)?;
    push_owners(&mut journal, slots);
    Ok(journal)
}

/// So many pages of zeros, of which nobody owns one and none of so many environments has bound one.
pub fn bare_memory(
    alloc: Global,
    version: Version,
    pages: u32,
    envs: u8,
) -> Result<(Frames, Pages, Bindings), OutOfMemory>
    requires pages { least_pages ≤ pages × pages ≤ most_pages }
    requires envs { envs ≤ most_environments_of version }
    ensures { IfOk result (λ m. (m.0 ≡ zeroed pages) × (m.1 ≡ replicate pages Free) × (m.2 ≡ empty_stripes version envs)) }
{
    let frames = Frames::new(alloc, pages)?;
    let rows = Pages::new(alloc, pages)?;
    let bindings = Bindings::new(alloc, envs, version)?;
    Ok((frames, rows, bindings))
}
