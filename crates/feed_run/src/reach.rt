//! Who can leave an environment nothing.
ghost use Rattle.std.specs.Prelude.{◌≡◌, ◌↔◌, true};
ghost use Rattle.board_model.specs.Showing.{world_of};
ghost use Rattle.feed_run.specs.Reach.{IsOutOfReach};

use aegis_calls::Board;
use aegis_limits::law_versions_are_within;
use feed_board::BoardFeed;
use feed_telling::FeedView;

/// Whether no page that an environment has bound for writing is one that another sees.
pub(crate) fn is_out_of_reach(board: &Board, writer: u8, env: u8) -> bool
    ensures { (result ≡ true) ↔ IsOutOfReach (world_of board.now).book writer env }
{
    law_versions_are_within();
    let feed = BoardFeed::of(board);
    let bindings = board.bindings();
    for row in 0..bindings.version().stripe_rows() {
        if let Some(binding) = bindings.in_row(writer, row) {
            if binding.writable && feed.sees(env, binding.page) {
                return false;
            }
        }
    }
    true
}
