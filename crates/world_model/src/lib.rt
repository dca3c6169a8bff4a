//! The model of Aegis: each environment as a lonely flat machine, one book of plain lists, and the
//! items that join them. The definitions stand in `specs/`, a file for each idea (`docs/MODEL.md`).
#![tactic(auto)]

mod call;
mod code;
mod hold;
mod life;
mod question;
mod registers;
mod slot;
mod timer;
mod verdict;
mod view;

pub use call::{Call, Deed, EXIT, OwnDeed};
pub use code::Code;
pub use hold::Hold;
pub use life::{Cause, Life};
pub use question::Question;
pub use registers::{
    CALL_NUMBER, CODE_REGISTER, FIFTH_ARGUMENT, FIRST_ARGUMENT, FOURTH_ARGUMENT, SECOND_ARGUMENT,
    THIRD_ARGUMENT, VALUE_REGISTER,
};
pub use slot::{Phase, Runner, Turn, drop_refusal, take_refusal};
pub use timer::Timer;
pub use verdict::{HandlerNo, Verdict};
pub use view::{MappedView, PageView, WorldView};
