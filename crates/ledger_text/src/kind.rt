//! The kinds of lines of a report, and which may follow which.
ghost use Rattle.std.specs.Prelude.{◌≡◌};
ghost use Rattle.ledger_text.specs.LineKinds.{before_bind, before_keep, before_page, before_row, before_sum, ends_env, kind_after, kind_named, may_follow};

use kernel_journal::RowName;
use line_text::{TableRow, find, table_rows};

/// The kind of a line.
#[derive(Clone, Copy)]
pub enum LineKind {
    /// None: what stands before the first line.
    Nothing,
    /// `aegis run`.
    Title,
    /// How the run ended.
    End,
    /// An environment: its name and life.
    Env,
    /// Its console.
    Out,
    /// The places in its program, HI and LO.
    Cpu,
    /// Its registers.
    Regs,
    /// Its excess.
    Excess,
    /// A page that is guaranteed to it.
    Keep,
    /// A page that it owns.
    Page,
    /// A page that it has bound.
    Bind,
    /// A packet that it sent.
    Sent,
    /// A row of the ledger.
    Row,
    /// The sums of an environment.
    Sum,
    /// `done`.
    Done,
}

/// The kinds of other lines than rows by their first words.
const KIND_NAMES: [TableRow<LineKind>; 12] = table_rows![
    b"sum" => LineKind::Sum,
    b"env" => LineKind::Env,
    b"out" => LineKind::Out,
    b"cpu" => LineKind::Cpu,
    b"regs" => LineKind::Regs,
    b"excess" => LineKind::Excess,
    b"keep" => LineKind::Keep,
    b"page" => LineKind::Page,
    b"bind" => LineKind::Bind,
    b"sent" => LineKind::Sent,
    b"aegis" => LineKind::Title,
    b"done" => LineKind::Done,
];

/// The first word of the line that says how the run ended, and of a row.
const END: &[u8] = b"end";

/// The kind of a line that begins with a word, behind a line of this kind.
pub(crate) fn kind_after(last: LineKind, name: &[u8]) -> Option<LineKind>
    ensures { result ≡ kind_after last name.now }
{
    match last {
        LineKind::Title if name == END => Some(LineKind::End),
        _ => kind_named(name),
    }
}

/// The kind of a line that begins with a word anywhere else.
fn kind_named(name: &[u8]) -> Option<LineKind>
    ensures { result ≡ kind_named name.now }
{
    if RowName::of(name).is_some() {
        return Some(LineKind::Row);
    }
    find(&KIND_NAMES, name)
}

/// Whether an environment's lines may end with this one.
fn ends_env(last: LineKind) -> bool
    ensures { result ≡ ends_env last }
{
    matches!(
        last,
        LineKind::Out
            | LineKind::Excess
            | LineKind::Keep
            | LineKind::Page
            | LineKind::Bind
            | LineKind::Sent
    )
}

/// Whether the line of a guaranteed page may stand behind it.
fn before_keep(last: LineKind) -> bool
    ensures { result ≡ before_keep last }
{
    matches!(last, LineKind::Excess | LineKind::Keep)
}

/// Whether the line of an owned page may.
fn before_page(last: LineKind) -> bool
    ensures { result ≡ before_page last }
{
    matches!(last, LineKind::Page) || before_keep(last)
}

/// Whether the line of a binding may.
fn before_bind(last: LineKind) -> bool
    ensures { result ≡ before_bind last }
{
    matches!(last, LineKind::Bind) || before_page(last)
}

/// Whether a row may.
fn before_row(last: LineKind) -> bool
    ensures { result ≡ before_row last }
{
    matches!(last, LineKind::Row) || ends_env(last)
}

/// Whether a sum may, or the last line.
fn before_sum(last: LineKind) -> bool
    ensures { result ≡ before_sum last }
{
    matches!(last, LineKind::Sum) || before_row(last)
}

/// Whether a line may stand directly behind another.
pub(crate) fn may_follow(last: LineKind, kind: LineKind) -> bool
    ensures { result ≡ may_follow last kind }
{
    match kind {
        LineKind::Nothing => false,
        LineKind::Title => matches!(last, LineKind::Nothing),
        LineKind::End => matches!(last, LineKind::Title),
        LineKind::Env => matches!(last, LineKind::End) || ends_env(last),
        LineKind::Out => matches!(last, LineKind::Env),
        LineKind::Cpu => matches!(last, LineKind::Out),
        LineKind::Regs => matches!(last, LineKind::Cpu),
        LineKind::Excess => matches!(last, LineKind::Regs),
        LineKind::Keep => before_keep(last),
        LineKind::Page => before_page(last),
        LineKind::Bind => before_bind(last),
        LineKind::Sent => ends_env(last),
        LineKind::Row => before_row(last),
        LineKind::Sum | LineKind::Done => before_sum(last),
    }
}
