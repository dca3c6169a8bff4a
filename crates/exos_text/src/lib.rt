//! ExOS, the library operating system of `examples/exos`, as texts; and a load that is made of a number: an image of
//! sixteen environments, and a schedule of a thousand packets.
//!
//! The image of each number has no fault, and the events are within their limits and in order. So what boots and runs
//! them has no refusal to answer.
#![tactic(auto)]

mod channels;
mod draws;
mod image;
mod memory;
mod program;
mod schedule;
mod shares;

pub use channels::{PIPE, RPC};
pub use image::load_image;
pub use memory::{STORM, VM};
pub use program::{LOAD, LOAD_ELF};
pub use schedule::load_schedule;
pub use shares::STRIDE;
