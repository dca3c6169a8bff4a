//! The answers to questions about the kernel's book.
ghost use Rattle.std.specs.Prelude.{◌≡◌};
ghost use Rattle.world_model.specs.Book.{page_row};
ghost use Rattle.world_model.specs.Queries.{answer_to, death_answer, holder_answer, owner_answer, question_numbered};
ghost use Rattle.world_model.specs.SlotCalls.{slot_at};

use crate::arguments::ANY;
use crate::view::CallView;
use world_model::{Code, Life, Question};

/// Whose a page is, if it is anybody's.
fn ask_owner<V: CallView>(view: &V, page: u32) -> Result<u32, Code>
    ensures { result ≡ owner_answer (page_row (V.world view.now).book page) }
{
    let Some(row) = view.page_row(page) else {
        return Err(Code::NoPage);
    };
    match row.owner() {
        Some(owner) => Ok(u32::from(owner)),
        None => Ok(ANY),
    }
}

/// Who holds a slot, if anybody does.
fn ask_holder<V: CallView>(view: &V, slot: u32) -> Result<u32, Code>
    ensures { result ≡ holder_answer (slot_at (V.world view.now).book slot) }
{
    match view.slot(slot) {
        None => Err(Code::NoSlice),
        Some(Some(hold)) => Ok(u32::from(hold.holder)),
        Some(None) => Ok(ANY),
    }
}

/// Whether an environment is dead.
fn ask_death<V: CallView>(view: &V, number: u32) -> Result<u32, Code>
    ensures { result ≡ death_answer (V.world view.now) number }
{
    match view.life_at(number) {
        Some(Life::Live) => Ok(0),
        Some(Life::Dead(_)) => Ok(1),
        None => Err(Code::NoEnv),
    }
}

/// The answer to a question about the kernel's book, by its number, for one of its pages, slots or environments
/// (`docs/KERNEL.md`, "Questions").
pub(crate) fn ask<V: CallView>(view: &V, env: u8, what: u32, index: u32) -> Result<u32, Code>
    ensures { result ≡ answer_to (V.world view.now) env (question_numbered what) index }
{
    let Some(question) = Question::numbered(what) else {
        return Err(Code::BadCall);
    };
    match question {
        Question::FreePages => Ok(view.free_pages()),
        Question::Pages => Ok(view.page_count()),
        Question::Environments => Ok(view.env_count()),
        Question::Slots => Ok(view.slot_count()),
        Question::Quantum => Ok(view.quantum()),
        Question::PageOwner => ask_owner(view, index),
        Question::SlotHolder => ask_holder(view, index),
        Question::Excess => Ok(view.excess(env)),
        Question::Death => ask_death(view, index),
    }
}
