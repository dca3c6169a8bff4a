//! Stretches of ticks in which the runner steps and nothing else happens, each as one call.
ghost use Rattle.std.specs.Prelude.{◌≡◌, ◌≤◌, ◌<◌, ◌+◌, IfSome, IsSome, None, Some};
ghost use Rattle.aegis_limits.specs.Limits.{most_ticks};
ghost use Rattle.world_model.specs.Book.{running};
ghost use Rattle.board_model.specs.Stretch.{ArePlain, stretched};
ghost use Rattle.aegis_calls.specs.Cached.{FindRows, EndsStretch, IsOfMiss, IsStuck};
ghost use Rattle.aegis_calls.specs.Entering.{IsEntering, Tells, TellsOfNext};
ghost use Rattle.aegis_calls.specs.Stretch.{ArePlainTicks, IsStretch, MayStretch, TellsOfSteps, most_plain};

use crate::board::Board;
use aegis_limits::{PAGE_BYTES, VPN_END};
use board_acts::{plain_most, refill, space_in};
use board_model::law_stretch;
use r3k_machine::{Entry, Steps};
use tlb_course::law_further;
use tlb_laws::{law_finds, law_misses, law_right_refill};
use world_model::WorldView;

/// No step was made, and none is to be tried again.
const NO_STEPS: Steps = Steps {
    made: 0,
    wanted: None,
    entry: None,
};

/// Ticks in which nothing happened but steps of the runner's that retired.
#[derive(Clone, Copy)]
pub struct Stretch {
    /// How many there were.
    pub made: u32,
    /// By what the runner enters the kernel in the next tick, where that is known; only where there might have been more.
    pub entry: Option<Entry>,
}

impl Board {
    /// The runner makes plain ticks over the rows as they are: at most so many, which come before its last tick and the next
    /// deadline.
    fn run_found(&mut self, env: u8, most: u32) -> Steps
        requires { MayStretch self.old env most }
        ensures after { self.new ≡ stretched self.old env result.made }
        ensures plain { ArePlain self.old env result.made }
        ensures found { FindRows self.old env result.made }
        ensures tells { TellsOfSteps self.new env most result }
        ensures missed { result.made < most → IsOfMiss self.new env result.wanted }
        ensures stop { result.made < most → IsStuck self.new env }
    {
        law_finds();
        law_misses();
        self.machine.set_user(env);
        let steps = self.machine.run(&mut self.frames, most);
        self.slots.pass(steps.made);
        self.time.pass(steps.made);
        steps
    }

    /// A row is refilled for an address that the runner's next step may want, and then it makes plain ticks, the first of
    /// which missed there. If it makes none, nothing has changed.
    #[inline(always)]
    fn run_refilled(&mut self, env: u8, address: u32, most: u32) -> Steps
        requires may { MayStretch self.old env most }
        requires more { 0 < most }
        requires stuck { IsStuck self.old env }
        requires missed { IsOfMiss self.old env (Some address) }
        requires untold { Tells self.old env None }
        ensures ticks { ArePlainTicks self.old self.new env result.made }
        ensures tells { TellsOfSteps self.new env most result }
        ensures missed { 0 < result.made → result.made < most → IsOfMiss self.new env result.wanted }
        ensures stop { 0 < result.made → result.made < most → IsStuck self.new env }
        ensures ends { result.made ≡ 0 → EndsStretch self.new env }
    {
        self.law_sound();
        law_stretch();
        law_misses();
        law_right_refill();
        let vpn = address / PAGE_BYTES;
        if vpn >= VPN_END {
            return NO_STEPS;
        }
        let random = self.machine.random();
        let row = self.machine.tlb.read(random);
        let fills = self.fills[usize::from(env)];
        let space = space_in(&self.roster, &self.bindings, env);
        if !refill(&mut self.machine.tlb, &mut self.fills, &space, random, vpn) {
            return NO_STEPS;
        }
        let steps = self.run_found(env, most);
        if steps.made > 0 {
            self.machine.fall();
            return steps;
        }
        self.machine.tlb.write(random, row.hi, row.lo);
        self.fills[usize::from(env)] = fills;
        NO_STEPS
    }

    /// The runner makes plain ticks, at most so many.
    #[inline(always)]
    fn run_plain(&mut self, env: u8, most: u32) -> Stretch
        requires runs { running self.old.slots.runner ≡ Some env }
        requires time { self.old.time + most ≤ most_ticks }
        ensures ticks { ArePlainTicks self.old self.new env result.made }
        ensures most { result.made ≤ most }
        ensures stop { result.made < most_plain self.old most → EndsStretch self.new env }
        ensures early { IsSome result.entry → result.made < most_plain self.old most }
        ensures told { result.made < most_plain self.old most → Tells self.new env result.entry }
    {
        self.law_sound();
        law_stretch();
        law_further();
        let plain = plain_most(&self.slots, &self.revocations, self.time.ticks(), most);
        let mut steps = self.run_found(env, plain);
        let mut done = steps.made;
        while let Some(address) = steps.wanted {
            steps = self.run_refilled(env, address, plain - done);
            if steps.made == 0 {
                break;
            }
            done += steps.made;
        }
        Stretch {
            made: done,
            entry: steps.entry,
        }
    }

    /// Ticks in which nothing happens but a step of the runner's that retires, at most so many; there may be none. It ends
    /// before the last tick of the slice, before a deadline, and before a call, an exception or a step that misses twice,
    /// which are left to a tick by its parts; a call or a BREAK whose word is found is told. It changes no claim. No deadline
    /// is served in it, no turn taken, and nobody sends.
    #[inline(always)]
    pub fn stretch(&mut self, most: u32) -> Stretch
        requires time { self.old.time + most ≤ most_ticks }
        ensures stretch { IsStretch self.old self.new most result.made }
        ensures early { IsSome result.entry → result.made < most }
        ensures entry { IfSome result.entry (IsEntering self.new) }
        ensures told { TellsOfNext self.old self.new most result.made result.entry }
    {
        self.law_sound();
        law_stretch();
        match self.runner() {
            Some(env) => self.run_plain(env, most),
            None => Stretch {
                made: 0,
                entry: None,
            },
        }
    }
}
