//! The limits of a wire (`docs/FORMATS.md`, "Limits").
ghost use Rattle.std.specs.Prelude.{◌≡◌};
ghost use Rattle.wire_model.specs.Limits.{all_others, most_delay, most_machines, most_wire_ticks};

/// The most machines on a wire.
pub const MOST_MACHINES: usize = 8;

/// The number by which a packet names all machines but its sender.
pub const ALL_OTHERS: u8 = 255;

/// The most ticks that a wire takes to carry a packet.
pub const MOST_DELAY: u32 = 65_536;

/// The most ticks of a run of machines on a wire.
pub const MOST_WIRE_TICKS: u32 = 1_048_576;

/// Law: the constants are the limits.
pub fn constants_are_the_wires_limits()
    ensures machines { MOST_MACHINES ≡ most_machines }
    ensures others { ALL_OTHERS ≡ all_others }
    ensures delay { MOST_DELAY ≡ most_delay }
    ensures ticks { MOST_WIRE_TICKS ≡ most_wire_ticks }
{}
