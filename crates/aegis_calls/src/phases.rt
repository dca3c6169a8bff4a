//! The parts of a tick, kernel calls and deaths, on the world that the board shows.
ghost use Rattle.std.specs.Prelude.{◌≡◌, ◌+◌, ◌<◌, ◌≤◌, IsSome, Some, false, true};
ghost use Rattle.aegis_limits.specs.Limits.{most_ticks};
ghost use Rattle.external_event.specs.EventValue.{is_occurrence};
ghost use Rattle.world_model.specs.Book.{is_idle_book, running};
ghost use Rattle.world_model.specs.Step.{Dies};
ghost use Rattle.board_model.specs.Ticks.{IsSameTick};
ghost use Rattle.aegis_calls.specs.Cached.{IsCallCached};
ghost use Rattle.aegis_calls.specs.Calls.{IsOneAct};
ghost use Rattle.aegis_calls.specs.Entering.{IsEntering, up_to_step};
ghost use Rattle.world_model.specs.Event.{happen as event_phase};
ghost use Rattle.world_model.specs.World.{after};
ghost use Rattle.tlb_course.specs.Course.{cache_acted, cache_served, cache_stepped, cache_timed};
ghost use Rattle.world_model.specs.Tick.{served, turn as turn_phase, step as step_phase, timer as timer_phase, died, IsAgain, IsCalled, IsRefused};

use crate::board::Board;
use aegis_limits::{ENVIRONMENT_NUMBERS, EXCESS_LIMIT, MOST_PAGES, MOST_SLOTS};
use board_model::{
    law_again_answered, law_call, law_happen, law_refusal, law_serving, law_step, law_stretch,
};
use external_event::Occurrence;
use r3k_machine::Entry;
use revocation_book::law_few_takings;
use world_model::{Cause, WorldView};

/// Rows enough for a kernel call, or a death, behind which each slot may go back to its owner.
pub const CALL_ROWS: usize = 2 * MOST_SLOTS;

/// Rows enough for an event, a step with its call or death, or the timer.
pub const STEP_ROWS: usize = 2 * CALL_ROWS;

/// Rows enough for a turn, which writes a start, and a forfeit for each quantum that the environments owe.
pub const TURN_ROWS: usize = 2 * ENVIRONMENT_NUMBERS * EXCESS_LIMIT as usize;

/// The most rows that are written where deadlines are served: one for each page that is taken.
pub const SERVE_ROWS: usize = MOST_PAGES as usize;

impl Board {
    ghost use Rattle.board_model.specs.Showing.{world_of};

    /// Nobody runs and no slot has a holder.
    pub fn idle(&self) -> bool
        ensures { result ≡ is_idle_book (world_of self.now).book }
    {
        self.slots.idle()
    }

    /// What happens from outside, before the turn of its tick: a packet goes to the claim that matches it, or is dropped;
    /// a signal on an interrupt line sets the line's bit in the context page of its owner, if it has one; and a revocation
    /// asks an environment for pages.
    #[inline(never)]
    pub fn happen(&mut self, what: &Occurrence)
        requires event { is_occurrence what.now ≡ true }
        requires time { self.old.time ≤ most_ticks }
        requires room { STEP_ROWS ≤ self.old.ledger.spare }
        ensures world { world_of self.new ≡ after (world_of self.old) (event_phase what.now (world_of self.old)) }
        ensures tlb { self.new.tlb ≡ self.old.tlb }
        ensures same { IsSameTick self.old self.new }
        ensures room { self.old.ledger.spare ≤ self.new.ledger.spare + STEP_ROWS }
    {
        self.law_sound();
        law_happen();
        self.law_claim_numbers();
        match what {
            Occurrence::Packet(packet) => self.arrive(packet),
            Occurrence::Line(line) => self.signal(*line),
            Occurrence::Revoke { env, count, grace } => {
                let time = self.time.ticks();
                self.revoke(*env, *count, time + *grace);
            }
        }
    }

    /// The deadlines that have come are served: of each environment whose deadline it is, the lowest first, as many pages
    /// are taken as are outstanding, or all that may be.
    pub fn serve(&mut self)
        requires room { SERVE_ROWS ≤ self.old.ledger.spare }
        ensures world { world_of self.new ≡ served (world_of self.old) }
        ensures tlb { self.new.tlb ≡ cache_served (world_of self.old) self.old.tlb }
        ensures idle { is_idle_book (world_of self.new).book ≡ is_idle_book (world_of self.old).book }
        ensures same { IsSameTick self.old self.new }
        ensures room { self.old.ledger.spare ≤ self.new.ledger.spare + SERVE_ROWS }
    {
        self.law_sound();
        law_serving();
        law_few_takings();
        self.serve_deadlines();
    }

    /// The next turn, where nobody runs: slots are forfeited whose holders owe, until one starts that owes nothing;
    /// else nothing. All environments must be there.
    #[inline(always)]
    pub fn turn(&mut self)
        requires whole { self.old.roster.spare ≡ 0 }
        requires room { TURN_ROWS ≤ self.old.ledger.spare }
        ensures world { world_of self.new ≡ after (world_of self.old) (turn_phase (world_of self.old)) }
        ensures tlb { self.new.tlb ≡ self.old.tlb }
        ensures runs { is_idle_book (world_of self.old).book ≡ false → IsSome (world_of self.new).book.runner }
        ensures same { IsSameTick self.old self.new }
        ensures room { self.old.ledger.spare ≤ self.new.ledger.spare + TURN_ROWS }
    {
        self.law_sound();
        self.take_turn();
    }

    /// The runner's step, and its call or its death. No more claims were made so far than there were ticks.
    #[inline(always)]
    pub fn step(&mut self)
        requires runs { IsSome (world_of self.old).book.runner }
        requires room { STEP_ROWS ≤ self.old.ledger.spare }
        requires numbers { self.old.claims.next ≤ self.old.time }
        ensures world { world_of self.new ≡ after (world_of self.old) (step_phase (world_of self.old)) }
        ensures tlb { self.new.tlb ≡ cache_stepped (world_of self.old) self.old.tlb }
        ensures act { IsOneAct self.old self.new }
        ensures room { self.old.ledger.spare ≤ self.new.ledger.spare + STEP_ROWS }
    {
        self.law_sound();
        // Reads the time, and with it that it is a number of 32 bits, as that of the next claim.
        let _time = self.time.ticks();
        law_step();
        self.law_claim_numbers();
        if let Some(env) = self.runner() {
            self.run_step(env);
        }
    }

    /// A tick up to its timer, where by its step the runner is known to enter the kernel: nothing comes before the step, and
    /// its call or exception is handled. No more claims were made so far than there were ticks.
    #[inline(always)]
    pub fn enter(&mut self, entry: Entry)
        requires entering { IsEntering self.old entry }
        requires room { STEP_ROWS ≤ self.old.ledger.spare }
        requires numbers { self.old.claims.next ≤ self.old.time }
        ensures world { world_of self.new ≡ after (up_to_step (world_of self.old)) (step_phase (up_to_step (world_of self.old))) }
        ensures tlb { self.new.tlb ≡ cache_stepped (up_to_step (world_of self.old)) (cache_served (world_of self.old) self.old.tlb) }
        ensures act { IsOneAct self.old self.new }
        ensures room { self.old.ledger.spare ≤ self.new.ledger.spare + STEP_ROWS }
    {
        self.law_sound();
        // Reads the time, and with it that it is a number of 32 bits, as that of the next claim.
        let _time = self.time.ticks();
        law_step();
        law_stretch();
        self.law_claim_numbers();
        if let Some(env) = self.runner() {
            self.run_entry(env, entry);
        }
    }

    /// The runner's ticks left fall by one, and at none its slice ends, or it owes a quantum more; time rises by one.
    #[inline(always)]
    pub fn timer(&mut self)
        requires time { self.old.time < most_ticks }
        requires room { STEP_ROWS ≤ self.old.ledger.spare }
        ensures world { world_of self.new ≡ after (world_of self.old) (timer_phase (world_of self.old)) }
        ensures tlb { self.new.tlb ≡ cache_timed (world_of self.old) self.old.tlb }
        ensures time { self.new.time ≡ self.old.time + 1 }
        ensures numbers { self.new.claims.next ≡ self.old.claims.next }
        ensures whole { self.new.roster.spare ≡ self.old.roster.spare }
        ensures room { self.old.ledger.spare ≤ self.new.ledger.spare + STEP_ROWS }
    {
        self.law_sound();
        self.count();
    }

    /// One kernel call of the runner: it stands at a SYSCALL outside a delay slot. A call that is
    /// refused changes the caller's `$2`, `$3` and where it stands, and nothing else. One that is to be made
    /// again asks another environment besides. All environments
    /// stay added, so that a turn may follow. No more claims were made so far than there were ticks.
    pub fn call(&mut self)
        requires runs { IsSome (world_of self.old).book.runner }
        requires room { CALL_ROWS ≤ self.old.ledger.spare }
        requires numbers { self.old.claims.next ≤ self.old.time }
        ensures world { IsCalled (world_of self.old) (world_of self.new) }
        ensures refused { IsRefused (world_of self.old) (world_of self.new) }
        ensures again { IsAgain (world_of self.old) (world_of self.new) }
        ensures tlb { IsCallCached self.old self.new }
        ensures act { IsOneAct self.old self.new }
        ensures room { self.old.ledger.spare ≤ self.new.ledger.spare + CALL_ROWS }
    {
        self.law_sound();
        // Reads the time, and with it that it is a number of 32 bits, as that of the next claim.
        let _time = self.time.ticks();
        law_call();
        law_refusal();
        law_again_answered();
        self.law_claim_numbers();
        if let Some(env) = self.runner() {
            self.take_call(env);
        }
    }

    /// The runner's death of this cause. All environments stay added, so that a turn may follow.
    pub fn kill(&mut self, env: u8, cause: Cause)
        requires runs { running (world_of self.old).book.runner ≡ Some env }
        requires room { CALL_ROWS ≤ self.old.ledger.spare }
        ensures world { world_of self.new ≡ died (world_of self.old) env cause }
        ensures tlb { self.new.tlb ≡ cache_acted (world_of self.old) env (Dies cause) self.old.tlb }
        ensures same { IsSameTick self.old self.new }
        ensures room { self.old.ledger.spare ≤ self.new.ledger.spare + CALL_ROWS }
    {
        self.law_sound();
        self.die(env, cause);
    }
}
