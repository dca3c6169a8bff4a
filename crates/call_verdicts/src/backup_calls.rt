//! Why a page isn't loaded as a backup.
ghost use Rattle.std.specs.Prelude.{◌≡◌, Some};
ghost use Rattle.world_model.specs.BackupCalls.{refusal_of_load};
ghost use Rattle.world_model.specs.Book.{running};

use crate::page_calls::refuse_change;
use crate::view::CallView;
use world_model::Code;

/// Why a page isn't loaded as a backup of the runner's, in the order of testing.
pub(crate) fn refuse_load<V: CallView>(view: &V, env: u8, page: u32) -> Option<Code>
    requires { running (V.world view.now).book.runner ≡ Some env }
    ensures { result ≡ refusal_of_load (V.world view.now) env page }
{
    if let Some(why) = refuse_change(view, env, page) {
        return Some(why);
    }
    let no = view.refuse_load(env, page)?;
    Some(Code::from(no))
}
