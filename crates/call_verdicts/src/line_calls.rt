//! Why calls on interrupt lines are refused.
ghost use Rattle.std.specs.Prelude.{◌≡◌};
ghost use Rattle.world_model.specs.LineCalls.{refusal_of_line, refusal_of_line_act};

use crate::view::CallView;
use external_event::LINES;
use world_model::Code;

/// What takes a line.
pub(crate) const TAKE: u32 = 1;

/// What drops it.
const DROP: u32 = 0;

/// Why a line with this owner isn't taken or dropped.
fn refuse_act(env: u8, act: u32, owner: Option<u8>) -> Option<Code>
    ensures { result ≡ refusal_of_line_act env act owner }
{
    match (act, owner) {
        (TAKE, Some(other)) if other != env => Some(Code::LineTaken),
        (TAKE, _) => None,
        (DROP, Some(owner)) if owner == env => None,
        (DROP, _) => Some(Code::NotHolder),
        _ => Some(Code::BadCall),
    }
}

/// Why a line isn't taken or dropped, in the order of testing.
pub(crate) fn refuse_line<V: CallView>(view: &V, env: u8, line: u32, act: u32) -> Option<Code>
    ensures { result ≡ refusal_of_line env line act ((V.world view.now).book.lines line) }
{
    if line >= u32::from(LINES) {
        return Some(Code::BadCall);
    }
    refuse_act(env, act, view.line_owner(line as u8))
}
