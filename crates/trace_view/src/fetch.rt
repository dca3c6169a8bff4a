//! What the next step fetches.
ghost use Rattle.std.specs.Prelude.{◌≡◌, Some, slice_index};
ghost use Rattle.byteorder.specs.Endian.{little_number};
ghost use Rattle.world_model.specs.Book.{running};
ghost use Rattle.board_model.specs.Showing.{world_of};
ghost use Rattle.trace_view.specs.Trace.{next_word};

use aegis_calls::Board;
use call_verdicts::CallView;

/// The bytes of a word.
const WORD_SIZE: u32 = 4;

/// The byte at a place, and 0 past the end.
fn byte_at(bytes: &[u8], place: usize) -> u32
    ensures { result ≡ slice_index bytes.now place }
{
    bytes.get(place).map_or(0, |byte| u32::from(*byte))
}

/// The number that the first four bytes spell, the lowest first.
fn word_of(bytes: &[u8]) -> u32
    ensures { result ≡ little_number 4 bytes.now }
{
    let high = byte_at(bytes, 2) + 256 * byte_at(bytes, 3);
    byte_at(bytes, 0) + 256 * byte_at(bytes, 1) + 65_536 * high
}

/// The word that the runner's next step fetches; none where the fetch is refused.
pub(crate) fn next_word(board: &Board, env: u8) -> Option<u32>
    requires { running (world_of board.now).book.runner ≡ Some env }
    ensures { result ≡ next_word ((world_of board.now).solos env) }
{
    let pc = board.registers(env).pc;
    if pc % WORD_SIZE != 0 {
        return None;
    }
    let bytes = board.range(env, pc, WORD_SIZE)?;
    Some(word_of(bytes))
}
