//! Items, each told at the end of the log as it is shown.
ghost use Rattle.std.specs.Prelude.{◌≡◌, ◌≢◌, ◌++◌, [], ◌∷◌, IfSome, OnOk};
ghost use Rattle.feed_log.specs.Views.{view_of};
ghost use Rattle.world_model.specs.Call.{any};
ghost use Rattle.world_model.specs.Item.{Step, Start, End, Killed, Answer, Gained, Lost, Left, Packet, Line, Asked, Taken};
ghost use Rattle.feed_telling.specs.Tell.{AreTold};

use aegis_limits::OutOfMemory;
use feed_log::{FeedLog, ItemKind, ItemView};
use world_model::Verdict;

/// The number that stands for no backup.
const ANY: u32 = 0xffff_ffff;

/// Tells an item of this kind with these numbers and bytes.
pub(crate) fn tell(
    log: &mut FeedLog,
    kind: ItemKind,
    a: u32,
    b: u32,
    bytes: &[u8],
) -> Result<(), OutOfMemory>
    ensures { OnOk result (log.new ≡ log.old ++ view_of kind a b bytes.now ∷ []) }
{
    log.push(&ItemView { kind, a, b, bytes })
}

/// Tells a step.
pub(crate) fn tell_stepped(log: &mut FeedLog) -> Result<(), OutOfMemory>
    ensures { OnOk result (AreTold log.old log.new (Step ∷ [])) }
{
    tell(log, ItemKind::Step, 0, 0, &[])
}

/// Tells the start of a slice.
pub(crate) fn tell_start(log: &mut FeedLog) -> Result<(), OutOfMemory>
    ensures { OnOk result (AreTold log.old log.new (Start ∷ [])) }
{
    tell(log, ItemKind::Start, 0, 0, &[])
}

/// Tells the end of a slice.
pub(crate) fn tell_end(log: &mut FeedLog) -> Result<(), OutOfMemory>
    ensures { OnOk result (AreTold log.old log.new (End ∷ [])) }
{
    tell(log, ItemKind::End, 0, 0, &[])
}

/// Tells a death of excess.
pub(crate) fn tell_killed(log: &mut FeedLog) -> Result<(), OutOfMemory>
    ensures { OnOk result (AreTold log.old log.new (Killed ∷ [])) }
{
    tell(log, ItemKind::Killed, 0, 0, &[])
}

/// Tells the kernel's answer to a call.
pub(crate) fn tell_answer(log: &mut FeedLog, verdict: Verdict) -> Result<(), OutOfMemory>
    ensures { OnOk result (AreTold log.old log.new (Answer verdict ∷ [])) }
{
    tell(log, ItemKind::Answer, verdict.code(), verdict.value(), &[])
}

/// Tells a page that is allocated or bound.
pub(crate) fn tell_gained(
    log: &mut FeedLog,
    page: u32,
    writable: bool,
    bytes: &[u8],
) -> Result<(), OutOfMemory>
    ensures { OnOk result (AreTold log.old log.new (Gained page writable bytes.now ∷ [])) }
{
    tell(log, ItemKind::Gained, page, u32::from(writable), bytes)
}

/// Tells the loss of a page.
pub(crate) fn tell_lost(log: &mut FeedLog, page: u32) -> Result<(), OutOfMemory>
    ensures { OnOk result (AreTold log.old log.new (Lost page ∷ [])) }
{
    tell(log, ItemKind::Lost, page, 0, &[])
}

/// Tells bytes that another stored.
pub(crate) fn tell_left(
    log: &mut FeedLog,
    page: u32,
    offset: u32,
    bytes: &[u8],
) -> Result<(), OutOfMemory>
    ensures { OnOk result (AreTold log.old log.new (Left page offset bytes.now ∷ [])) }
{
    tell(log, ItemKind::Left, page, offset, bytes)
}

/// Tells how many pages are outstanding, and until when.
pub(crate) fn tell_asked(
    log: &mut FeedLog,
    outstanding: u32,
    deadline: u32,
) -> Result<(), OutOfMemory>
    ensures { OnOk result (AreTold log.old log.new (Asked outstanding deadline ∷ [])) }
{
    tell(log, ItemKind::Asked, outstanding, deadline, &[])
}

/// Tells a signal on an interrupt line.
pub(crate) fn tell_line(log: &mut FeedLog, line: u8) -> Result<(), OutOfMemory>
    ensures { OnOk result (AreTold log.old log.new (Line line ∷ [])) }
{
    tell(log, ItemKind::Line, u32::from(line), 0, &[])
}

/// Tells a page that is taken, and the backup that gets a copy of it.
pub(crate) fn tell_taken(
    log: &mut FeedLog,
    page: u32,
    backup: Option<u32>,
) -> Result<(), OutOfMemory>
    requires { IfSome backup (λ number. number ≢ any) }
    ensures { OnOk result (AreTold log.old log.new (Taken page backup ∷ [])) }
{
    tell(log, ItemKind::Taken, page, backup.unwrap_or(ANY), &[])
}

/// Tells a packet for a claim.
pub(crate) fn tell_packet(log: &mut FeedLog, claim: u32, packet: &[u8]) -> Result<(), OutOfMemory>
    ensures { OnOk result (AreTold log.old log.new (Packet claim packet.now ∷ [])) }
{
    tell(log, ItemKind::Packet, claim, 0, packet)
}
