//! The text of rows, as one table: what each is called, and its numbers in their order, each of a kind that has a limit.
ghost use Rattle.std.specs.Prelude.{◌≡◌};
ghost use Rattle.std.specs.List.{find};
ghost use Rattle.std.specs.Str.{bytes_eq};
ghost use Rattle.kernel_journal.specs.RowTable.{kinds_of, may_be_none, most_of, name_in, text_of, time_of};

use crate::row::Row;
use aegis_limits::{EXCESS_LIMIT, MOST_ENVIRONMENTS, MOST_RUN_TICKS, MOST_SLOTS};

/// Which row it is: a name for each form that a `Row` has.
#[derive(Clone, Copy)]
pub enum RowName {
    Own,
    Run,
    Pay,
    Give,
    Async,
    Sync,
    End,
    Over,
    Stop,
    Dead,
    Asked,
    Take,
    Unclaimed,
}

/// What a number of a row is.
#[derive(Clone, Copy)]
pub enum NumberKind {
    /// A tick.
    Time,
    /// A slot's number.
    Slot,
    /// An environment's number.
    Env,
    /// An environment's number, or none.
    EnvOrNone,
    /// What an environment owes, in quanta.
    Excess,
    /// Any other number.
    Number,
    /// Any other number, or none.
    NumberOrNone,
}

/// All names, those first that most rows have.
const NAMES: [RowName; 13] = [
    RowName::Run,
    RowName::Stop,
    RowName::Own,
    RowName::Pay,
    RowName::Give,
    RowName::Async,
    RowName::Sync,
    RowName::End,
    RowName::Over,
    RowName::Dead,
    RowName::Asked,
    RowName::Take,
    RowName::Unclaimed,
];

/// The kinds of the numbers of the row that says who has a slot.
const OWN: [NumberKind; 4] = [
    NumberKind::Time,
    NumberKind::Slot,
    NumberKind::EnvOrNone,
    NumberKind::EnvOrNone,
];

/// Those of a row of one environment in a slot.
const TURN: [NumberKind; 3] = [NumberKind::Time, NumberKind::Slot, NumberKind::Env];

/// Those of a row of two environments in a slot.
const GIFT: [NumberKind; 4] = [
    NumberKind::Time,
    NumberKind::Slot,
    NumberKind::Env,
    NumberKind::Env,
];

/// Those of a row of an environment's excess.
const OVER: [NumberKind; 4] = [
    NumberKind::Time,
    NumberKind::Slot,
    NumberKind::Env,
    NumberKind::Excess,
];

/// Those of a row of pages that are asked for.
const ASKED: [NumberKind; 4] = [
    NumberKind::Time,
    NumberKind::Env,
    NumberKind::Number,
    NumberKind::Number,
];

/// Those of a row of a page that is taken.
const TAKE: [NumberKind; 4] = [
    NumberKind::Time,
    NumberKind::Env,
    NumberKind::Number,
    NumberKind::NumberOrNone,
];

/// Those of the row of a packet.
const UNCLAIMED: [NumberKind; 2] = [NumberKind::Time, NumberKind::Number];

impl NumberKind {
    /// The highest number of this kind.
    pub(crate) fn most(self) -> u64
        ensures { result ≡ most_of self }
    {
        match self {
            NumberKind::Time => u64::from(MOST_RUN_TICKS),
            NumberKind::Slot => MOST_SLOTS as u64 - 1,
            NumberKind::Env | NumberKind::EnvOrNone => MOST_ENVIRONMENTS as u64 - 1,
            NumberKind::Excess => u64::from(EXCESS_LIMIT) + 1,
            NumberKind::Number | NumberKind::NumberOrNone => u64::from(u32::MAX),
        }
    }

    /// Whether there may be none.
    pub(crate) fn may_be_none(self) -> bool
        ensures { result ≡ may_be_none self }
    {
        matches!(self, NumberKind::EnvOrNone | NumberKind::NumberOrNone)
    }
}

impl RowName {
    /// The name that a text is.
    pub fn of(text: &[u8]) -> Option<RowName>
        ensures { result ≡ name_in text.now }
    {
        name_among(&NAMES, text)
    }

    /// How a text calls the row.
    fn text(self) -> &'static [u8]
        ensures { result.now ≡ text_of self }
    {
        match self {
            RowName::Own => b"own",
            RowName::Run => b"run",
            RowName::Pay => b"pay",
            RowName::Give => b"give",
            RowName::Async => b"async",
            RowName::Sync => b"sync",
            RowName::End => b"end",
            RowName::Over => b"over",
            RowName::Stop => b"stop",
            RowName::Dead => b"dead",
            RowName::Asked => b"asked",
            RowName::Take => b"take",
            RowName::Unclaimed => b"drop",
        }
    }

    /// The kinds of its numbers, in their order.
    pub(crate) fn kinds(self) -> &'static [NumberKind]
        ensures { result.now ≡ kinds_of self }
    {
        match self {
            RowName::Own => &OWN,
            RowName::Run | RowName::Pay | RowName::End | RowName::Stop | RowName::Dead => &TURN,
            RowName::Give | RowName::Async | RowName::Sync => &GIFT,
            RowName::Over => &OVER,
            RowName::Asked => &ASKED,
            RowName::Take => &TAKE,
            RowName::Unclaimed => &UNCLAIMED,
        }
    }
}

impl Row {
    /// The tick in which it happened, which is its first number.
    pub fn time(&self) -> u32
        ensures { result ≡ time_of self.now }
    {
        match *self {
            Row::Own { time, .. }
            | Row::Run { time, .. }
            | Row::Pay { time, .. }
            | Row::Give { time, .. }
            | Row::Async { time, .. }
            | Row::Sync { time, .. }
            | Row::End { time, .. }
            | Row::Over { time, .. }
            | Row::Stop { time, .. }
            | Row::Dead { time, .. }
            | Row::Asked { time, .. }
            | Row::Take { time, .. }
            | Row::Unclaimed { time, .. } => time,
        }
    }
}

/// The first of these names that a text is.
fn name_among(names: &[RowName], text: &[u8]) -> Option<RowName>
    ensures { result ≡ find (λ name. bytes_eq text.now (text_of name)) names.now }
{
    names.iter().copied().find(|name| text == name.text())
}
