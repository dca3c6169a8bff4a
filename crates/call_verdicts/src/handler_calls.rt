//! The verdict on a download of a handler.
ghost use Rattle.std.specs.Prelude.{◌≡◌, ◌≤◌, Some};
ghost use Rattle.std.specs.Option.{option_map};
ghost use Rattle.handler_rules.specs.Verification.{most_words};
ghost use Rattle.world_model.specs.Book.{running};
ghost use Rattle.world_model.specs.Downloads.{download, download_verdict, handler_at, handler_bytes};
ghost use Rattle.world_model.specs.Solo.{sight};

use crate::view::CallView;
use handler_rules::{Handler, HandlerFault, MOST_WORDS, WORD_SIZE, read_handler};
use world_model::{Code, FIRST_ARGUMENT, HandlerNo, SECOND_ARGUMENT, THIRD_ARGUMENT, Verdict};

/// The bytes of the words that a call of the runner's names; of none they need no range.
fn handler_bytes<V: CallView>(view: &V, env: u8, address: u32, words: u32) -> Option<&[u8]>
    requires runs { running (V.world view.now).book.runner ≡ Some env }
    requires few { words ≤ most_words }
    ensures { option_map (λ r. r.now) result ≡ handler_bytes (sight ((V.world view.now).solos env)) address words }
{
    if words == 0 {
        return Some(&[]);
    }
    view.range(env, address, words * WORD_SIZE as u32)
}

/// The handler that a call of the runner's names, of so many words from an address on; else why there is none.
pub fn named_handler<V: CallView>(
    view: &V,
    env: u8,
    address: u32,
    words: u32,
) -> Result<Handler, HandlerNo>
    requires { running (V.world view.now).book.runner ≡ Some env }
    ensures { result ≡ handler_at (sight ((V.world view.now).solos env)) address words }
{
    if words > MOST_WORDS as u32 {
        return Err(HandlerNo::BadWord(MOST_WORDS as u32));
    }
    let Some(bytes) = handler_bytes(view, env, address, words) else {
        return Err(HandlerNo::BadPointer);
    };
    match read_handler(bytes) {
        Ok(handler) => Ok(handler),
        Err(HandlerFault { at }) => Err(HandlerNo::BadWord(at)),
    }
}

/// The verdict on a download, by the handler that is named.
fn judge(named: &Result<Handler, HandlerNo>) -> Verdict
    ensures { result ≡ download_verdict named.now }
{
    match named {
        Ok(_) => Verdict::Grant(0),
        Err(HandlerNo::BadPointer) => Verdict::Refuse(Code::BadPointer, 0),
        Err(HandlerNo::BadWord(at)) => Verdict::Refuse(Code::BadHandler, *at),
    }
}

/// The verdict on a download of the runner's.
#[inline(never)]
pub(crate) fn decide_download<V: CallView>(view: &V, env: u8) -> Verdict
    requires { running (V.world view.now).book.runner ≡ Some env }
    ensures { result ≡ download ((V.world view.now).solos env) }
{
    let cpu = view.registers(env);
    let address = cpu.reg(SECOND_ARGUMENT);
    let words = cpu.reg(THIRD_ARGUMENT);
    if !view.has_claim(env, cpu.reg(FIRST_ARGUMENT)) {
        return Verdict::Refuse(Code::NoFilter, 0);
    }
    judge(&named_handler(view, env, address, words))
}
