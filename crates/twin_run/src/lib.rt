//! Two runs compared by what one environment is given in each: whether it is the same up to the end of a slice, and if
//! not, in which item it differs first (`docs/REPORT.md`, "Two runs compared").
#![tactic(auto)]

mod answer;
mod comparison;
mod course;
mod difference;
mod item_text;
mod text;

/// The most slices up to whose end two runs are compared (`docs/FORMATS.md`, "Limits").
pub const MOST_COMPARED_SLICES: u32 = 1_000_000;

pub use answer::{Side, TwinAnswer};
pub use comparison::twin;
pub use item_text::ItemText;
pub use text::twin_text;
