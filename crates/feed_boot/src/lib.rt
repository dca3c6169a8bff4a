//! An environment's record in an image, told: the item that it is given at boot. It is read of the image's program, and of
//! whatever shows the world that the image boots.
#![tactic(auto)]

mod record;

pub use record::tell_record;
