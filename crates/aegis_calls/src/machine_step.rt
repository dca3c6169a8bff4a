//! The step of the machine: what it does to the board's parts.
ghost use Rattle.std.specs.Prelude.{◌≡◌, IfSome, IsNone, IsSome, MatchOption, Some};
ghost use Rattle.mips_exec.specs.Step.{outcome_of};
ghost use Rattle.r3k_machine.specs.Entry.{came_by};
ghost use Rattle.world_model.specs.Book.{running};
ghost use Rattle.aegis_calls.specs.Calls.{MayCall};

use crate::board::Board;
use aegis_limits::PAGE_BYTES;
use board_acts::{answer_miss, space_in};
use mips_exec::{Exc, ExcCode, Outcome};
use r3k_machine::{Entry, MachineEnd};

impl Board {
    ghost use Rattle.board_model.specs.Doing.{after_runner_step, after_machine_step, step_seen};
    ghost use Rattle.board_model.specs.Refilling.{HasTlb, IsAttempted, IsRefilled, with_lookups};
    ghost use Rattle.aegis_calls.specs.Entering.{StandsAt};

    /// An attempt of the runner's step, in user mode, over the rows of the TLB: how it ended, or None where a row was
    /// refilled, so that it is to be tried again.
    #[inline(never)]
    fn try_step(&mut self, env: u8) -> Option<Outcome>
        requires { running self.old.slots.runner ≡ Some env }
        ensures { MatchOption result (IsRefilled self.old env self.new) (IsAttempted self.old env self.new) }
    {
        let random = self.machine.random();
        self.machine.set_user(env);
        match self.machine.user_step(&mut self.frames) {
            MachineEnd::Retired => Some(Outcome::Retired),
            MachineEnd::Call => Some(Outcome::Call),
            MachineEnd::Trap(exc) => Some(Outcome::Trap(exc)),
            MachineEnd::Refill(exc) => {
                let space = space_in(&self.roster, &self.bindings, env);
                let is_refilled = answer_miss(
                    &mut self.machine.tlb,
                    &mut self.fills,
                    &space,
                    random,
                    exc.bad / PAGE_BYTES,
                );
                if is_refilled {
                    None
                } else {
                    Some(Outcome::Trap(exc))
                }
            }
        }
    }

    /// The runner's step where by it the program enters the kernel, and its word can be fetched by the rows as they are: by
    /// what. Otherwise nothing has changed.
    #[inline(always)]
    fn try_entry(&mut self, env: u8) -> Option<Entry>
        requires { running self.old.slots.runner ≡ Some env }
        ensures entry { IfSome result (λ entry. IsAttempted self.old env self.new (outcome_of (came_by entry))) }
        ensures other { IsNone result → self.new ≡ self.old }
    {
        let machine = &mut self.machine;
        machine.set_user(env);
        machine.attempt_entry(&self.frames)
    }

    /// Law: there are as many rows of the TLB as ever, and Random names one of them.
    fn law_tlb(&self)
        ensures { HasTlb self.now }
    {
        self.machine.tlb.law_count();
        let _random = self.machine.random();
    }

    /// The machine makes the runner's step where by it the program enters the kernel, and its word can be fetched by the rows
    /// as they are: by what. Otherwise nothing has changed.
    #[inline(always)]
    fn make_entry(&mut self, env: u8) -> Option<Entry>
        requires { running self.old.slots.runner ≡ Some env }
        ensures shown { IsSome result → self.new ≡ after_machine_step (with_lookups self.old env) env (step_seen self.old env) }
        ensures outcome { IfSome result (λ entry. outcome_of (came_by entry) ≡ outcome_of (step_seen self.old env)) }
        ensures other { IsNone result → self.new ≡ self.old }
    {
        self.law_sound();
        self.try_entry(env)
    }

    /// The machine makes one step for the runner. Its accesses go by the TLB, of which at most two rows are refilled.
    fn run_machine(&mut self, env: u8) -> Outcome
        requires { running self.old.slots.runner ≡ Some env }
        ensures shown { self.new ≡ after_machine_step (with_lookups self.old env) env (step_seen self.old env) }
        ensures outcome { result ≡ outcome_of (step_seen self.old env) }
    {
        self.law_sound();
        self.law_tlb();
        if let Some(outcome) = self.try_step(env) {
            return outcome;
        }
        if let Some(outcome) = self.try_step(env) {
            return outcome;
        }
        self.try_step(env).unwrap()
    }

    /// The machine makes the runner's step, by which it is known to enter the kernel: Random falls, and nothing else changes.
    #[inline(always)]
    fn make_known(&mut self, env: u8, entry: Entry)
        requires { StandsAt self.old env entry }
        ensures shown { self.new ≡ after_machine_step (with_lookups self.old env) env (step_seen self.old env) }
        ensures outcome { outcome_of (came_by entry) ≡ outcome_of (step_seen self.old env) }
    {
        self.machine.fall();
    }

    /// The runner makes its step, by which it is known to enter the kernel, and its call or trap is handled.
    #[inline(always)]
    pub(crate) fn run_entry(&mut self, env: u8, entry: Entry)
        requires call { MayCall self.old env }
        requires stands { StandsAt self.old env entry }
        ensures { self.new ≡ after_runner_step (with_lookups self.old env) env (step_seen self.old env) }
    {
        self.make_known(env, entry);
        match entry {
            Entry::Call => self.take_call(env),
            Entry::Break => self.trap(env, &Exc::plain(ExcCode::Bp)),
        }
    }

    /// The runner makes a step, and its call or trap is handled.
    #[inline(never)]
    pub(crate) fn run_step(&mut self, env: u8)
        requires { MayCall self.old env }
        ensures { self.new ≡ after_runner_step (with_lookups self.old env) env (step_seen self.old env) }
    {
        match self.make_entry(env) {
            Some(Entry::Call) => self.take_call(env),
            Some(Entry::Break) => self.trap(env, &Exc::plain(ExcCode::Bp)),
            None => self.make_step(env),
        }
    }

    /// The same of any step.
    #[inline(never)]
    fn make_step(&mut self, env: u8)
        requires { MayCall self.old env }
        ensures { self.new ≡ after_runner_step (with_lookups self.old env) env (step_seen self.old env) }
    {
        match self.run_machine(env) {
            Outcome::Retired => {}
            Outcome::Call => self.take_call(env),
            Outcome::Trap(exc) => self.trap(env, &exc),
        }
    }
}
