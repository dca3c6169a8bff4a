//! Whose pages are, who has bound them, and their bytes.
ghost use Rattle.std.specs.Prelude.{◌≡◌};
ghost use Rattle.page_book.specs.Row.{is_owned_by};
ghost use Rattle.page_book.specs.Rows.{row_in};
ghost use Rattle.bind_book.specs.Stripe.{is_bound, is_of_page as is_binding_of, stripes};
ghost use Rattle.world_model.specs.PageCalls.{page_bytes as bytes_of_page};
ghost use Rattle.board_model.specs.Showing.{world_of};

use aegis_calls::Board;
use aegis_limits::law_versions_are_within;
use bind_book::{Binding, Bindings};
use board_acts::is_owned;
use page_book::{PageRow, Pages};

/// Whether an environment owns a page that isn't guaranteed to it.
pub(crate) fn owns(pages: &Pages, env: u8, page: u32) -> bool
    ensures { result ≡ is_owned_by env (row_in pages.now page) }
{
    match pages.row(page) {
        Some(row) => is_owned(row, env),
        None => false,
    }
}

/// Whether the binding in a row is of this page.
fn is_of_page(binding: Option<Binding>, page: u32) -> bool
    ensures { result ≡ is_binding_of page binding }
{
    match binding {
        Some(binding) => binding.page == page,
        None => false,
    }
}

/// Whether an environment has bound a page.
pub(crate) fn has_bound(bindings: &Bindings, env: u8, page: u32) -> bool
    ensures { result ≡ is_bound page (stripes bindings.now env) }
{
    law_versions_are_within();
    for row in 0..bindings.version().stripe_rows() {
        if is_of_page(bindings.in_row(env, row), page) {
            return true;
        }
    }
    false
}

/// The bytes of a page that somebody owns; of another there are none.
pub(crate) fn page_bytes(board: &Board, page: u32) -> &[u8]
    ensures { result.now ≡ bytes_of_page (world_of board.now) page }
{
    board.law_sound();
    let Some(row) = board.pages().row(page) else {
        return &[];
    };
    match row {
        PageRow::Owned { .. } => board.frames().page(page),
        PageRow::Free | PageRow::Guaranteed { .. } => &[],
    }
}
