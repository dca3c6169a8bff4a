//! What is answered of two runs.
use crate::item_text::ItemText;
use machine_text::FINGERPRINT_SIZE;

/// One of two runs.
#[derive(Clone, Copy)]
pub enum Side {
    Left,
    Right,
}

/// How two runs compare by what one environment is given in them, up to the end of its slice of some number.
#[derive(Drop)]
pub enum TwinAnswer {
    /// It is given the same.
    Same {
        /// The fingerprint of what a report shows of the environment on the left side.
        fingerprint: [u8; FINGERPRINT_SIZE],
    },
    /// It isn't given the same.
    FeedsDiffer {
        /// The place of the first difference: its record at boot is item 0.
        index: u64,
        /// The item on the left side.
        left: ItemText,
        /// The item on the right side.
        right: ItemText,
    },
    /// A side doesn't come to the end of the slice. The left side is named where neither does.
    NotReached {
        /// The side.
        which: Side,
        /// How many slices of the environment it comes to.
        slices: u32,
    },
}
