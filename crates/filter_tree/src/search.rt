//! Searches through the claims: for one of a number at its distance from the first or by halving, and else through all.
ghost use Rattle.std.specs.Prelude.{◌≡◌, ◌<◌, IfNone, IfSome, None, Some, count_by, find, length, slice_index_or};
ghost use Rattle.std.specs.List.{list_any};
ghost use Rattle.std.specs.Option.{option_map};
ghost use Rattle.filter_tree.specs.Keeping.{AreRising, handler_numbered, row_refusal};
ghost use Rattle.filter_tree.specs.ClaimBook.{RowValue, is_of_env};
ghost use Rattle.filter_tree.specs.Claims.{claim_seen, is_claim, is_in_the_way, is_into, row_numbered};

use crate::claim::{Claim, ClaimNo};
use crate::row::ClaimRow;
use filter_core::{Filter, Layout};
use handler_rules::Handler;

/// The most claims of an environment.
pub const MOST_CLAIMS: usize = 8;

/// How many claims are the environment's.
fn count_of_env(rows: &[ClaimRow], env: u8) -> usize
    ensures { result ≡ count_by (λ (r : RowValue). is_of_env env r.claim) rows.now }
{
    rows.iter().filter(|row| row.is_of_env(env)).count()
}

/// Whether the packets of some claim go into the page.
pub(crate) fn has_into(rows: &[ClaimRow], page: u32) -> bool
    ensures { result ≡ list_any (λ (r : RowValue). is_into page r.claim) rows.now }
{
    rows.iter().any(|row| row.is_into(page))
}

/// The lowest claim of another environment whose filter overlaps this one.
fn in_the_way(rows: &[ClaimRow], env: u8, filter: &Filter) -> Option<Claim>
    ensures { result ≡ option_map claim_seen (find (λ (r : RowValue). is_in_the_way env filter.now r.claim) rows.now) }
{
    let layout = Layout::of(filter);
    for row in rows {
        if row.is_in_the_way(env, &layout) {
            return Some(row.claim());
        }
    }
    None
}

/// Why the environment's filter is refused, if it is.
pub(crate) fn refusal(rows: &[ClaimRow], env: u8, filter: &Filter) -> Option<ClaimNo>
    ensures { result ≡ row_refusal rows.now env filter.now }
{
    if count_of_env(rows, env) >= MOST_CLAIMS {
        return Some(ClaimNo::Full);
    }
    let claim = in_the_way(rows, env, filter)?;
    Some(ClaimNo::Overlap(claim.id))
}

/// The place of the claim of this number, if it stands. Where no claim before it was withdrawn it stands as far behind
/// the first as its number is above that one's, and there it is looked for first.
pub(crate) fn place_numbered(rows: &[ClaimRow], id: u32) -> Option<usize>
    requires { AreRising rows.now }
    ensures within { IfSome result (λ k. k < length rows.now) }
    ensures some { IfSome result (λ k. (d : RowValue) → row_numbered id rows.now ≡ Some (slice_index_or rows.now k d)) }
    ensures none { IfNone result (row_numbered id rows.now ≡ None) }
{
    match place_by_distance(rows, id) {
        Some(place) => Some(place),
        None => place_by_halving(rows, id),
    }
}

/// The place of the claim of this number, if it stands as far behind the first as its number is above that one's.
fn place_by_distance(rows: &[ClaimRow], id: u32) -> Option<usize>
    requires { AreRising rows.now }
    ensures within { IfSome result (λ k. k < length rows.now) }
    ensures some { IfSome result (λ k. (d : RowValue) → row_numbered id rows.now ≡ Some (slice_index_or rows.now k d)) }
{
    let first = rows.first()?.id();
    let place = id.checked_sub(first)? as usize;
    if place < rows.len() && rows[place].is_numbered(id) {
        Some(place)
    } else {
        None
    }
}

/// The place of the claim of this number, if it stands. It is found by halving.
fn place_by_halving(rows: &[ClaimRow], id: u32) -> Option<usize>
    requires { AreRising rows.now }
    ensures within { IfSome result (λ k. k < length rows.now) }
    ensures some { IfSome result (λ k. (d : RowValue) → row_numbered id rows.now ≡ Some (slice_index_or rows.now k d)) }
    ensures none { IfNone result (row_numbered id rows.now ≡ None) }
{
    let place = rows.partition_point(|row| row.id() < id);
    if place < rows.len() && rows[place].is_numbered(id) {
        Some(place)
    } else {
        None
    }
}

/// The environment's claim of this number.
pub(crate) fn claim_held(rows: &[ClaimRow], env: u8, id: u32) -> Option<Claim>
    requires { AreRising rows.now }
    ensures { result ≡ option_map claim_seen (find (λ (r : RowValue). is_claim env id r.claim) rows.now) }
{
    let row = &rows[place_numbered(rows, id)?];
    if row.is_of_env(env) {
        Some(row.claim())
    } else {
        None
    }
}

/// The handler of the claim of this number, if it has one.
pub(crate) fn claim_handler(rows: &[ClaimRow], id: u32) -> Option<&Handler>
    requires { AreRising rows.now }
    ensures { option_map (λ handler. handler.now) result ≡ handler_numbered id rows.now }
{
    rows[place_numbered(rows, id)?].handler()
}

/// The claim of this number.
pub(crate) fn claim_numbered(rows: &[ClaimRow], id: u32) -> Option<Claim>
    requires { AreRising rows.now }
    ensures { result ≡ option_map claim_seen (row_numbered id rows.now) }
{
    Some(rows[place_numbered(rows, id)?].claim())
}
