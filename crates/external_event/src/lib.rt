//! What comes from outside while the machine runs: packets, signals on interrupt lines, and revocations, each at its
//! time.
//!
//! The reader of schedules makes events, and the model and the board say what becomes of them. An event's numbers
//! are within their limits (`docs/FORMATS.md`, "Schedule"), which hold of every value of its types.
#![tactic(auto)]

mod event;
mod packet;
mod sent;

pub use event::{Event, LAST_ENVIRONMENT, LINES, MOST_ASKED, Occurrence};
pub use packet::{LEAST_FRAME_SIZE, MOST_PACKET_SIZE, MOST_SENT, PacketBytes};
pub use sent::SentPacket;
