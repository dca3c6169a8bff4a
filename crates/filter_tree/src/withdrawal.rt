//! Claims that are withdrawn, claims whose buffers take turns, and claims that get a handler.
ghost use Rattle.std.specs.Prelude.{◌≡◌, filter, map, not, vec_capacity};
ghost use Rattle.std.specs.Option.{option_map};
ghost use Rattle.filter_tree.specs.Keeping.{AreRising};
ghost use Rattle.filter_tree.specs.ClaimBook.{RowValue};
ghost use Rattle.filter_tree.specs.Withdrawals.{is_withdrawn, withdraws};
ghost use Rattle.filter_tree.specs.Claims.{row_with_handler_if, row_after_packet_if};

use crate::row::ClaimRow;
use crate::search::place_numbered;
use handler_rules::Handler;

/// Which claims are withdrawn.
#[derive(Clone, Copy)]
pub(crate) enum Withdrawal {
    /// The environment's claim of this number.
    Numbered { env: u8, id: u32 },
    /// Those whose packets go into this page.
    IntoPage(u32),
    /// Those of this environment.
    OfEnv(u8),
}

impl Withdrawal {
    /// Whether a claim of this number, which the environment made for a page, is withdrawn.
    pub(crate) fn takes(self, id: u32, env: u8, page: u32) -> bool
        ensures { result ≡ withdraws self id env page }
    {
        match self {
            Withdrawal::Numbered {
                env: own,
                id: number,
            } => id == number && env == own,
            Withdrawal::IntoPage(own) => page == own,
            Withdrawal::OfEnv(own) => env == own,
        }
    }
}

/// Withdraws claims.
pub(crate) fn withdraw(rows: &mut Vec<ClaimRow>, withdrawal: Withdrawal)
    ensures rows { rows.new.items ≡ filter (λ (r : RowValue). not (is_withdrawn withdrawal r.claim)) rows.old.items }
    ensures room { vec_capacity rows.new ≡ vec_capacity rows.old }
{
    rows.retain(|row| !row.is_withdrawn(withdrawal));
}

/// The next packet of the claim of this number goes into the other buffer.
pub(crate) fn turn(rows: &mut Vec<ClaimRow>, id: u32)
    requires { AreRising rows.old.items }
    ensures rows { rows.new.items ≡ map (row_after_packet_if id) rows.old.items }
    ensures room { vec_capacity rows.new ≡ vec_capacity rows.old }
{
    turn_in(rows, id);
}

/// The same in a slice of claims.
fn turn_in(rows: &mut [ClaimRow], id: u32)
    requires { AreRising rows.old }
    ensures { rows.new ≡ map (row_after_packet_if id) rows.old }
{
    if let Some(place) = place_numbered(rows, id) {
        rows[place].turn();
    }
}

/// The claim of this number has a copy of the handler from now on, or none.
pub(crate) fn download(rows: &mut Vec<ClaimRow>, id: u32, handler: Option<&Handler>)
    requires { AreRising rows.old.items }
    ensures rows { rows.new.items ≡ map (row_with_handler_if id (option_map (λ handler. handler.now) handler.entry)) rows.old.items }
    ensures room { vec_capacity rows.new ≡ vec_capacity rows.old }
{
    download_in(rows, id, handler);
}

/// The same in a slice of claims.
fn download_in(rows: &mut [ClaimRow], id: u32, handler: Option<&Handler>)
    requires { AreRising rows.old }
    ensures { rows.new ≡ map (row_with_handler_if id (option_map (λ handler. handler.now) handler.entry)) rows.old }
{
    if let Some(place) = place_numbered(rows, id) {
        rows[place].download(handler);
    }
}
