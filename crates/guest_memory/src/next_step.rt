//! The next step of an environment, unmade.
ghost use Rattle.std.specs.Prelude.{◌≡◌};
ghost use Rattle.std.specs.Option.{option_map};
ghost use Rattle.mips_exec.specs.Step.{outcome_of, write_after};
ghost use Rattle.guest_memory.specs.Look.{guest_step};
ghost use Rattle.guest_memory.specs.Space.{lookup};
ghost use Rattle.guest_memory.specs.Peek.{write_seen};

use crate::peek_bus::{PeekBus, Written};
use crate::space::Space;
use frame_store::Frames;
use mips_exec::{Cpu, Outcome};
use mips_step::step_user;

/// How the next step of an environment with these registers ends, and what it stores, if it stores. Nothing changes.
pub fn peek(cpu: &Cpu, frames: &Frames, space: &Space<'_>) -> (Outcome, Option<Written>)
    ensures outcome { result.0 ≡ outcome_of (guest_step frames.now (lookup space.now) cpu.now) }
    ensures write { option_map write_seen result.1 ≡ write_after (guest_step frames.now (lookup space.now) cpu.now) }
{
    let mut after = *cpu;
    let mut bus = PeekBus {
        frames,
        space,
        written: None,
    };
    let outcome = step_user(&mut after, &mut bus);
    (outcome, bus.written)
}
