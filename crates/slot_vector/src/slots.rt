//! The vector of slots, by the calls of the kernel.
ghost use Rattle.std.specs.Prelude.{◌≡◌, ◌<◌, ◌≤◌, ◌+◌, true, IsSome, IfSome, IsNone, Some, OnErr, OnOk, length, slice_get, All};
ghost use Rattle.std.specs.Option.{option_map};
ghost use Rattle.aegis_limits.specs.Limits.{least_quantum, most_quantum, most_slots, excess_limit, environment_numbers};
ghost use Rattle.world_model.specs.declared.hold.Hold.{Hold as Held};
ghost use Rattle.world_model.specs.declared.slot.Phase.TheVariants as phase;
ghost use Rattle.world_model.specs.Book.{own_hold, running};
ghost use Rattle.world_model.specs.SlotCalls.{dropped};
ghost use Rattle.slot_vector.specs.Slices.{HasTicks, IsWithin, OwesWithin, after_ticks, after_timer, after_turn, excess_of, first_slices, given_to, hold_at, in_grace_again, is_idle, left_of, mask_of, next_turn, refusal_of_drop, refusal_of_donation, refusal_of_take, timer_answer, turn_ended, unless, with_hold, without_env};
ghost use Rattle.world_model.specs.Timer.{timer_at_end};

use crate::excess::Excess;
use crate::held::{another, dropped, gift_refusal, handed, held_by, put, slot_at};
use crate::search::{Row, first_turn, hold_at, mask_of, own_holds, release};
use crate::turn::NextTurn;
use aegis_limits::EXCESS_LIMIT;
use std::marker::Model;
use world_model::{Code, Hold, Phase, Runner, Timer, drop_refusal, take_refusal};

/// The vector of slots, what each environment owes, and the runner with the ticks left of its quantum.
#[derive(Drop)]
pub struct Slots {
    slots: Row,
    quantum: u32,
    cursor: usize,
    runner: Option<Runner>,
    excess: Excess,
}

impl Model for Slots {
    ghost use Rattle.std.specs.Prelude.{◌<◌, ◌≤◌, All, length};
    ghost use Rattle.aegis_limits.specs.Limits.{most_quantum, most_slots};
    ghost use Rattle.slot_vector.specs.Slices.{Slices, IsNumbered, RunsByNumber};

    ghost Value = { Slices };

    ghost view = { λ s. record { slots = s.slots.items; quantum = s.quantum; cursor = s.cursor; runner = s.runner; excess = s.excess } };

    ghost invariant = { λ s. (s.cursor < length s.slots.items) × (length s.slots.items ≤ most_slots) × (0 < s.quantum) × RunsByNumber s.runner × All IsNumbered s.slots.items × (s.quantum ≤ most_quantum) };
}

impl Slots {
    /// A vector with these owners, each holding its slots itself. The cursor is at the last slot,
    /// so that the first turn is the first held slot's. The quantum is in ticks. Nobody owes anything.
    pub fn new(quantum: u32, owners: &[Option<u8>]) -> Slots
        requires quantum { least_quantum ≤ quantum × quantum ≤ most_quantum }
        requires count { 1 ≤ length owners.now × length owners.now ≤ most_slots }
        requires owners { All (λ owner. IfSome owner (λ e. e < environment_numbers)) owners.now }
        ensures { result ≡ first_slices quantum owners.now }
    {
        Slots {
            slots: own_holds(owners),
            quantum,
            cursor: owners.len() - 1,
            runner: None,
            excess: Excess::new(),
        }
    }

    /// What comes next, where nobody runs, by the first held slot after the cursor, all around. If its
    /// holder owes, the slot is forfeited, and the holder owes one quantum less; ask again then. Else
    /// the holder runs, with a full quantum. The cursor moves to the slot. Where no slot has a holder
    /// nothing changes.
    pub fn next_turn(&mut self) -> NextTurn
        requires { IsNone self.old.runner }
        ensures turn { result ≡ next_turn self.old }
        ensures after { self.new ≡ after_turn self.old result }
        ensures within { IsWithin (length self.old.slots) result }
    {
        let Some(turn) = first_turn(self.slots.as_slice(), self.cursor) else {
            return NextTurn::Idle;
        };
        self.cursor = turn.slot as usize;
        let owed = self.excess.of(turn.env);
        if owed == 0 {
            self.runner = Some(Runner {
                env: turn.env,
                left: self.quantum,
                phase: Phase::Own,
            });
            return NextTurn::Run(turn);
        }
        self.excess.set(turn.env, owed - 1);
        NextTurn::Pay(turn)
    }

    /// A tick of the runner's quantum is over, and it has a handler of the ends of its slices or not.
    /// The ticks left fall by one, and at none the quantum is over: a slice ends the turn, or begins
    /// the time of grace of a runner with a handler; a quantum of grace raises the runner's excess by
    /// one, and another begins. After `Kill` no ticks are left, and the excess is above the limit: the
    /// runner is to die, before another tick.
    pub fn timer(&mut self, has_end: bool) -> Timer
        requires ticks { HasTicks self.old.runner }
        requires owes { OwesWithin (excess_of self.old.excess) self.old.runner }
        ensures answer { result ≡ timer_answer self.old has_end }
        ensures after { self.new ≡ after_timer self.old result }
    {
        let Some(runner) = &mut self.runner else {
            return Timer::Nothing;
        };
        if runner.left != 1 {
            runner.left -= 1;
            return Timer::Nothing;
        }
        let runner = *runner;
        self.end_quantum(runner, has_end)
    }

    /// How many ticks the runner has left; none where nobody runs.
    pub fn left(&self) -> u32
        ensures { result ≡ left_of self.now.runner }
    {
        match self.runner {
            Some(runner) => runner.left,
            None => 0,
        }
    }

    /// So many ticks of the runner's quantum are over, which leave it some.
    pub fn pass(&mut self, ticks: u32)
        requires { ticks < left_of self.old.runner }
        ensures { self.new ≡ after_ticks ticks self.old }
    {
        if let Some(runner) = &mut self.runner {
            runner.left -= ticks;
        }
    }

    /// The runner's quantum is over.
    fn end_quantum(&mut self, runner: Runner, has_end: bool) -> Timer
        requires runs { self.old.runner ≡ Some runner }
        requires owes { excess_of self.old.excess runner.env ≤ excess_limit }
        ensures answer { result ≡ timer_at_end runner.phase has_end (excess_of self.old.excess runner.env) }
        ensures after { self.new ≡ after_timer self.old result }
    {
        match runner.phase {
            Phase::Own if has_end => {
                self.begin_grace(runner);
                Timer::End
            }
            Phase::Own => {
                self.runner = None;
                Timer::Stop
            }
            Phase::Grace => self.count_grace(runner),
        }
    }

    /// A quantum of grace is over.
    fn count_grace(&mut self, runner: Runner) -> Timer
        requires runs { self.old.runner ≡ Some runner }
        requires owes { excess_of self.old.excess runner.env ≤ excess_limit }
        ensures answer { result ≡ timer_at_end phase.Grace true (excess_of self.old.excess runner.env) }
        ensures after { self.new ≡ after_timer self.old result }
    {
        let excess = self.excess.of(runner.env) + 1;
        self.excess.set(runner.env, excess);
        if excess > EXCESS_LIMIT {
            self.runner = Some(Runner { left: 0, ..runner });
            return Timer::Kill;
        }
        self.begin_grace(runner);
        Timer::Over(excess)
    }

    /// The runner goes on, with a quantum of grace.
    fn begin_grace(&mut self, runner: Runner)
        requires runs { self.old.runner ≡ Some runner }
        ensures { self.new ≡ record self.old { runner = in_grace_again self.old self.old.runner } }
    {
        self.runner = Some(Runner {
            left: self.quantum,
            phase: Phase::Grace,
            ..runner
        });
    }

    /// The turn ends, with the rest of its slice.
    pub fn give_up(&mut self)
        ensures { self.new ≡ turn_ended self.old }
    {
        self.runner = None;
    }

    /// Whether the runner may give the rest of its slice away, and for a later the slot with its later slices too.
    /// `NoSlice` says that it runs in time of grace, which isn't its own; and `NotHolder` that the slot, which is
    /// asked for too, isn't its own to give, since another holds it or nobody does.
    pub fn may_donate(&self, later: bool) -> Result<(), Code>
        ensures { result ≡ unless (refusal_of_donation later self.now) }
    {
        let slot = hold_at(self.slots.as_slice(), self.cursor);
        match gift_refusal(later, self.runner, slot) {
            Some(why) => Err(why),
            None => Ok(()),
        }
    }

    /// Another environment goes on with the rest of the runner's slice. For a later it holds the slot from now
    /// on, whose owner stays.
    pub fn donate(&mut self, to: u8, later: bool)
        requires runs { IsSome self.old.runner }
        requires number { to < environment_numbers }
        ensures { self.new ≡ given_to to later self.old }
    {
        self.runner = handed(self.runner, to);
        if later {
            let slot = hold_at(self.slots.as_slice(), self.cursor);
            put(&mut self.slots, self.cursor, held_by(slot, to));
        }
    }

    /// The empty slot is the environment's own, which holds it itself. `NoSlice` comes where there is no
    /// such slot, and `SlotTaken` where it isn't empty; neither changes anything.
    pub fn take(&mut self, env: u8, slot: u32) -> Result<(), Code>
        requires { env < environment_numbers }
        ensures answer { result ≡ unless (refusal_of_take self.old slot) }
        ensures taken { OnOk result (self.new ≡ with_hold self.old slot (Some (own_hold env))) }
        ensures left { OnErr result (self.new ≡ self.old) }
    {
        if let Some(why) = take_refusal(slot_at(self.slots.as_slice(), slot as usize)) {
            return Err(why);
        }
        put(&mut self.slots, slot as usize, Some(Hold::own(env)));
        Ok(())
    }

    /// The environment drops the slot that it holds: one of its own is empty, and one that it holds for
    /// another is its owner's again. `NoSlice` comes where there is no such slot, and `NotHolder` where
    /// the environment doesn't hold it; neither changes anything.
    pub fn drop_slot(&mut self, env: u8, slot: u32) -> Result<(), Code>
        ensures answer { result ≡ unless (refusal_of_drop env self.old slot) }
        ensures dropped { OnOk result (self.new ≡ with_hold self.old slot (dropped env (hold_at self.old.slots slot))) }
        ensures left { OnErr result (self.new ≡ self.old) }
    {
        let place = slot as usize;
        if let Some(why) = drop_refusal(slot_at(self.slots.as_slice(), place), env) {
            return Err(why);
        }
        let hold = hold_at(self.slots.as_slice(), place);
        put(&mut self.slots, place, dropped(hold, env));
        Ok(())
    }

    /// The environment is gone: each slot that it owned is empty, each that it held for another goes
    /// back to its owner, its turn ends, if it runs, and it owes nothing. The result has a bit for each
    /// slot that changed, the lowest for slot 0.
    pub fn release_env(&mut self, env: u8) -> u64
        requires { env < environment_numbers }
        ensures mask { result ≡ mask_of env self.old.slots }
        ensures after { self.new ≡ without_env env self.old }
    {
        let mask = mask_of(self.slots.as_slice(), env);
        release(self.slots.as_mut_slice(), env);
        self.excess.set(env, 0);
        self.runner = another(self.runner, env);
        mask
    }

    /// The environment's excess: the quanta that it ran past its slices and hasn't forfeited yet, 0 to 8, or
    /// 9 of a runner that is to die.
    pub fn excess(&self, env: u8) -> u32
        ensures excess { result ≡ excess_of self.now.excess env }
        ensures most { result ≤ excess_limit + 1 }
    {
        self.excess.of(env)
    }

    /// The ticks of a quantum, at most `MOST_QUANTUM`.
    pub fn quantum(&self) -> u32
        ensures quantum { result ≡ self.now.quantum }
        ensures most { result ≤ most_quantum }
    {
        self.quantum
    }

    /// Who owns and holds the slot, if anybody does; none where there is no such slot.
    pub fn hold(&self, slot: u32) -> Option<Option<Hold>>
        ensures { result ≡ slice_get self.now.slots slot }
    {
        slot_at(self.slots.as_slice(), slot as usize)
    }

    /// The environment that owns the slot; none where it is empty, or past the last.
    pub fn owner(&self, slot: u32) -> Option<u8>
        ensures { result ≡ option_map (λ (h : Held). h.owner) (hold_at self.now.slots slot) }
    {
        let hold = hold_at(self.slots.as_slice(), slot as usize)?;
        Some(hold.owner)
    }

    /// The environment that holds the slot; none where it is empty, or past the last.
    pub fn holder(&self, slot: u32) -> Option<u8>
        ensures { result ≡ option_map (λ (h : Held). h.holder) (hold_at self.now.slots slot) }
    {
        let hold = hold_at(self.slots.as_slice(), slot as usize)?;
        Some(hold.holder)
    }

    /// The environment that runs, if one runs.
    pub fn runner(&self) -> Option<u8>
        ensures { result ≡ running self.now.runner }
    {
        let runner = self.runner?;
        Some(runner.env)
    }

    /// Who runs, for how many ticks more, and whether in the slice or in grace; none where nobody runs.
    pub fn running(&self) -> Option<Runner>
        ensures { result ≡ self.now.runner }
    {
        self.runner
    }

    /// The cursor: the slot of the turn that runs, or of the last one.
    pub fn slot(&self) -> u32
        ensures cursor { result ≡ self.now.cursor }
        ensures within { result < length self.now.slots }
    {
        self.cursor as u32
    }

    /// How many slots there are, 1 to 64.
    pub fn slots(&self) -> u32
        ensures count { result ≡ length self.now.slots }
        ensures within { result ≤ most_slots }
    {
        self.slots.len() as u32
    }

    /// Nobody runs and no slot has a holder.
    pub fn idle(&self) -> bool
        ensures { result ≡ is_idle self.now }
    {
        self.runner.is_none() && first_turn(self.slots.as_slice(), self.cursor).is_none()
    }
}
