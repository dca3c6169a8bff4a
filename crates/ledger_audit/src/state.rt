//! What the auditor keeps of the rows that it has read.
ghost use Rattle.std.specs.Prelude.{◌≡◌, ◌<◌, ◌-◌, ◌^◌, None, Some};
ghost use Rattle.world_model.specs.declared.slot.Phase.TheVariants.{Grace, Own};
ghost use Rattle.ledger_audit.specs.LedgerState.{first_state, hold_of};
ghost use Rattle.kernel_journal.specs.RowTable.{IsRowWithin};
ghost use Rattle.ledger_audit.specs.Auditor.{state_of};

use crate::slots::released_count;
use aegis_limits::{ENVIRONMENT_NUMBERS, MOST_SLOTS};
use kernel_journal::Row;
use world_model::{Hold, Phase};

/// The state that the rows so far tell, as `docs/LEDGER_AUDIT.md` lists it.
#[derive(Drop)]
pub(crate) struct State {
    /// Each slot by its last `own` row.
    pub(crate) slots: [Option<Hold>; MOST_SLOTS],
    /// The slot of the last `own` row.
    pub(crate) last_slot: Option<u32>,
    /// The slot of the last `run` or `pay` row.
    pub(crate) cursor: u32,
    /// How many rows of each environment are runs.
    pub(crate) runs: [u64; ENVIRONMENT_NUMBERS],
    /// How many are pays.
    pub(crate) pays: [u64; ENVIRONMENT_NUMBERS],
    /// How many are overs.
    pub(crate) overs: [u64; ENVIRONMENT_NUMBERS],
    /// Which environments died.
    pub(crate) dead: [bool; ENVIRONMENT_NUMBERS],
    /// Who runs.
    pub(crate) runner: Option<u8>,
    /// In which phase.
    pub(crate) phase: Phase,
    /// The time of the last `run` row.
    pub(crate) slice_start: u32,
    /// The time of the last `end` or `over` row.
    pub(crate) grace_start: u32,
    /// The tick of the next turn, where nobody runs.
    pub(crate) turn: u32,
    /// The time of the last row.
    pub(crate) time: u32,
    /// Whether there are `own` rows alone.
    pub(crate) at_boot: bool,
    /// How many `own` rows more the last `dead` or `sync` row asks for.
    pub(crate) due: usize,
}

impl State {
    ghost use Rattle.std.specs.Prelude.{◌+◌};
    ghost use Rattle.ledger_audit.specs.LedgerState.{after_row};
    ghost use Rattle.ledger_audit.specs.Auditor.{due_left, undue, IsCounted};

    /// The state before the first row.
    pub(crate) fn first() -> State
        ensures state { state_of result ≡ first_state }
        ensures due { result.due ≡ 0 }
        ensures counts { IsCounted 0 result }
    {
        State {
            slots: [None; MOST_SLOTS],
            last_slot: None,
            cursor: MOST_SLOTS as u32 - 1,
            runs: [0; ENVIRONMENT_NUMBERS],
            pays: [0; ENVIRONMENT_NUMBERS],
            overs: [0; ENVIRONMENT_NUMBERS],
            dead: [false; ENVIRONMENT_NUMBERS],
            runner: None,
            phase: Phase::Own,
            slice_start: 0,
            grace_start: 0,
            turn: 0,
            time: 0,
            at_boot: true,
            due: 0,
        }
    }

    /// Notes a row.
    pub(crate) fn note(&mut self, row: &Row)
        requires within { IsRowWithin row.now }
        requires counts { IsCounted (2 ^ 63) self.old }
        ensures state { state_of self.new ≡ undue (after_row row.now (state_of self.old)) }
        ensures due { self.new.due ≡ due_left row.now self.old.due (state_of self.old) }
    {
        self.due = self.due_left(row);
        self.time = row.time();
        self.at_boot = self.at_boot && matches!(row, Row::Own { .. });
        match *row {
            Row::Own {
                slot,
                owner,
                holder,
                ..
            } => {
                self.slots[slot as usize] = hold_of(owner, holder);
                self.last_slot = Some(slot);
            }
            Row::Run { time, slot, env } => {
                self.runs[env as usize] += 1;
                self.begin_slice(time, slot, env);
            }
            Row::Pay { slot, env, .. } => {
                self.cursor = slot;
                self.pays[env as usize] += 1;
            }
            Row::Give { to, .. } | Row::Async { to, .. } | Row::Sync { to, .. } => {
                self.runner = Some(to);
            }
            Row::End { time, .. } => self.begin_grace(time),
            Row::Over { time, env, .. } => {
                self.overs[env as usize] += 1;
                self.grace_start = time;
            }
            Row::Stop { time, .. } => self.stop(time),
            Row::Dead { time, env, .. } => {
                self.dead[env as usize] = true;
                self.stop(time);
            }
            // The others say nothing of slices.
            _ => {}
        }
    }

    /// How many `own` rows are due behind a row.
    fn due_left(&self, row: &Row) -> usize
        ensures { result ≡ due_left row.now self.now.due (state_of self.now) }
    {
        match *row {
            Row::Own { .. } => self.due.saturating_sub(1),
            Row::Sync { .. } => 1,
            Row::Dead { time, env, .. } => released_count(&self.slots, time, env),
            _ => 0,
        }
    }

    /// An environment's slice begins, in its turn.
    fn begin_slice(&mut self, time: u32, slot: u32, env: u8)
        ensures { self.new ≡ record self.old { cursor = slot; runner = Some env; phase = Own; slice_start = time } }
    {
        self.cursor = slot;
        self.runner = Some(env);
        self.phase = Phase::Own;
        self.slice_start = time;
    }

    /// The runner's slice is over, and its grace begins.
    fn begin_grace(&mut self, time: u32)
        ensures { self.new ≡ record self.old { phase = Grace; grace_start = time } }
    {
        self.phase = Phase::Grace;
        self.grace_start = time;
    }

    /// Nobody runs from the next tick on.
    fn stop(&mut self, time: u32)
        requires { time < 2 ^ 32 - 1 }
        ensures { self.new ≡ record self.old { runner = None; turn = time + 1 } }
    {
        self.runner = None;
        self.turn = time + 1;
    }
}

/// A slot with an owner and a holder, or an empty one.
fn hold_of(owner: Option<u8>, holder: Option<u8>) -> Option<Hold>
    ensures { result ≡ hold_of owner holder }
{
    let owner = owner?;
    let holder = holder?;
    Some(Hold { owner, holder })
}
