//! Events, each at its time.
use crate::packet::PacketBytes;
use aegis_limits::ENVIRONMENT_NUMBERS;
use std::marker::Model;

/// How many interrupt lines the machine has, numbered from 0.
pub const LINES: u8 = 8;

/// The greatest number of an environment that is asked for pages.
pub const LAST_ENVIRONMENT: u8 = ENVIRONMENT_NUMBERS as u8 - 1;

/// The most pages for which an environment is asked at once.
pub const MOST_ASKED: u32 = 4096;

/// What happens.
#[derive(Drop)]
pub enum Occurrence {
    /// A packet arrives.
    Packet(PacketBytes),
    /// The interrupt line of this number, below `LINES`, is raised.
    Line(u8),
    /// An environment is asked for pages.
    Revoke {
        /// Its number, at most `LAST_ENVIRONMENT`.
        env: u8,
        /// How many, at most `MOST_ASKED`.
        count: u32,
        /// The ticks until the deadline, at most `MOST_RUN_TICKS`.
        grace: u32,
    },
}

/// Something that happens at a time. Its limits hold of every value of this type.
#[derive(Drop)]
pub struct Event {
    /// The tick at whose beginning it happens, at most `MOST_RUN_TICKS`.
    pub time: u32,
    /// What happens.
    pub what: Occurrence,
}

impl Model for Event {
    ghost use Rattle.std.specs.Prelude.{◌≡◌, true};
    ghost use Rattle.external_event.specs.EventValue.{EventValue, is_event};

    ghost Value = { EventValue };

    ghost view = { λ e. record { time = e.time; what = e.what } };

    ghost invariant = { λ e. is_event (record { time = e.time; what = e.what }) ≡ true };
}
