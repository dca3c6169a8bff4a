//! What a pass over the rows of all environments leaves.
ghost use Rattle.std.specs.Prelude.{◌≡◌, ◌≤◌, ◌<◌, ◌/◌, None, if◌then◌else◌, length, slice_index_or, slice_set};
ghost use Rattle.page_book.specs.Row.{belongs_to};
ghost use Rattle.page_book.specs.Rows.{row_in};
ghost use Rattle.bind_book.specs.Marks.{IsMarked};
ghost use Rattle.bind_book.specs.Stripe.{most_places, leads_to_page, goes_with, without, swept_rows};
ghost use Rattle.aegis_limits.specs.VersionLimits.{stripe_rows};

use crate::binding::Binding;
use crate::mark::Mark;
use aegis_limits::{Version, law_versions_are_within};
use page_book::Pages;

/// Breaks the bindings of a page, of all environments but this one, if one is spared. Only the rows are looked at of
/// which the page's mark says that they may lead to it.
pub(crate) fn break_marked(
    rows: &mut [Option<Binding>],
    version: Version,
    mark: Mark,
    page: u32,
    but: Option<u8>,
)
    requires count { length rows.old ≤ most_places }
    requires marked { IsMarked mark page rows.old }
    ensures { rows.new ≡ swept_rows version (leads_to_page page but) rows.old }
{
    match mark {
        Mark::Nowhere => {}
        Mark::At(place) => break_row(rows, version, place as usize, page, but),
        Mark::Anywhere => break_page(rows, version, page, but),
    }
}

/// Breaks the binding at a place as `break_page` does, if there is one, and looks at no other row.
fn break_row(
    rows: &mut [Option<Binding>],
    version: Version,
    place: usize,
    page: u32,
    but: Option<u8>,
)
    requires { length rows.old ≤ most_places }
    ensures { rows.new ≡ slice_set rows.old place (without (leads_to_page page but (place / stripe_rows version)) (slice_index_or rows.old place None)) }
{
    if place < rows.len() {
        let row = rows[place];
        rows[place] = if is_broken(row, env_of(version, place), page, but) {
            None
        } else {
            row
        };
    }
}

/// Breaks the bindings of a page, of all environments but this one, if one is spared, wherever they stand.
fn break_page(rows: &mut [Option<Binding>], version: Version, page: u32, but: Option<u8>)
    requires { length rows.old ≤ most_places }
    ensures { rows.new ≡ swept_rows version (leads_to_page page but) rows.old }
{
    for (place, row) in rows.iter_mut().enumerate() {
        if is_broken(*row, env_of(version, place), page, but) {
            *row = None;
        }
    }
}

/// Takes away the bindings of an environment that is gone, and those of its pages.
pub(crate) fn clear_env(rows: &mut [Option<Binding>], version: Version, gone: u8, pages: &Pages)
    requires { length rows.old ≤ most_places }
    ensures { rows.new ≡ swept_rows version (goes_with (row_in pages.now) gone) rows.old }
{
    for (place, row) in rows.iter_mut().enumerate() {
        *row = without_env(*row, env_of(version, place), gone, pages);
    }
}

/// The environment in whose stripe a place is.
#[tactic(auto, unfolding(aegis_limits::specs::VersionLimits::stripe_rows))]
fn env_of(version: Version, place: usize) -> u8
    requires { place < most_places }
    ensures { result ≡ place / stripe_rows version }
{
    law_versions_are_within();
    (place / version.stripe_rows() as usize) as u8
}

/// Whether the environment's binding in a row, if there is one, is broken with the page.
fn is_broken(row: Option<Binding>, env: u8, page: u32, but: Option<u8>) -> bool
    ensures { without (leads_to_page page but env) row ≡ (if result then None else row) }
{
    match row {
        Some(binding) => binding.page == page && but != Some(env),
        None => false,
    }
}

/// The environment's row once an environment is gone.
fn without_env(row: Option<Binding>, env: u8, gone: u8, pages: &Pages) -> Option<Binding>
    ensures { result ≡ without (goes_with (row_in pages.now) gone env) row }
{
    let binding = row?;
    if env == gone || pages.belongs_to(binding.page, gone) {
        None
    } else {
        row
    }
}
