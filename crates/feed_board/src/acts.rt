//! What the runner's next step does.
ghost use Rattle.std.specs.Prelude.{◌≡◌, Some};
ghost use Rattle.std.specs.Option.{option_map};
ghost use Rattle.mips_exec.specs.Step.{outcome_of, write_after};
ghost use Rattle.guest_memory.specs.Look.{guest_step};
ghost use Rattle.guest_memory.specs.Space.{lookup};
ghost use Rattle.guest_memory.specs.Peek.{write_seen};
ghost use Rattle.world_model.specs.Book.{running};
ghost use Rattle.world_model.specs.Tick.{act_now};
ghost use Rattle.board_model.specs.Showing.{world_of};
ghost use Rattle.feed_telling.specs.Tell.{act_shown};
ghost use Rattle.feed_board.specs.Acting.{call_shown, outcome_shown, trap_shown, write_shown};

use aegis_calls::Board;
use aegis_limits::PAGE_BYTES;
use call_verdicts::CallView;
use env_frames::Context;
use feed_telling::{NextAct, Stored};
use frame_store::Frames;
use guest_memory::{Space, Written, peek};
use mips_exec::{Cpu, Outcome};
use world_model::{CALL_NUMBER, EXIT};

/// What others see of a store, if there is one: nothing, unless it goes through a binding.
fn act_of_write(space: &Space<'_>, written: Option<Written>) -> NextAct
    ensures { result ≡ write_shown space.now (option_map write_seen written) }
{
    let Some(written) = written else {
        return NextAct::Aside;
    };
    let vpn = written.address / PAGE_BYTES;
    if space.env.guaranteed(vpn).is_some() {
        return NextAct::Aside;
    }
    match space.bindings.find(space.number, vpn) {
        Some(binding) => NextAct::Stores {
            page: binding.page,
            offset: written.address % PAGE_BYTES,
            bytes: Stored::low(written.width, written.value),
        },
        None => NextAct::Aside,
    }
}

/// What others see of a kernel call: exit is its caller's death.
fn act_of_call(cpu: &Cpu) -> NextAct
    ensures { result ≡ call_shown cpu.now }
{
    if cpu.reg(CALL_NUMBER) == EXIT {
        NextAct::Dies
    } else {
        NextAct::Calls
    }
}

/// What others see of an exception: it is a death where there is no handler of exceptions.
fn act_of_trap(handler: u32) -> NextAct
    ensures { result ≡ trap_shown handler }
{
    if handler == 0 {
        NextAct::Dies
    } else {
        NextAct::Aside
    }
}

/// What others see of the next step of an environment with these registers and this handler of exceptions.
fn act_seen(cpu: &Cpu, frames: &Frames, space: &Space<'_>, handler: u32) -> NextAct
    ensures { result ≡ outcome_shown space.now handler cpu.now (outcome_of (guest_step frames.now (lookup space.now) cpu.now)) (write_after (guest_step frames.now (lookup space.now) cpu.now)) }
{
    let (outcome, written) = peek(cpu, frames, space);
    match outcome {
        Outcome::Retired => act_of_write(space, written),
        Outcome::Call => act_of_call(cpu),
        Outcome::Trap(_) => act_of_trap(handler),
    }
}

/// What others see of the runner's next step.
pub(crate) fn next_act(board: &Board, runner: u8) -> NextAct
    requires { running board.now.slots.runner ≡ Some runner }
    ensures { result ≡ act_shown (act_now (world_of board.now) runner) }
{
    board.law_sound();
    let env = board.env(runner);
    let space = Space {
        env,
        bindings: board.bindings(),
        number: runner,
    };
    let handler = env.handler(Context::Exception);
    act_seen(board.registers(runner), board.frames(), &space, handler)
}
