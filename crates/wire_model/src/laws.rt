//! The laws of machines on a wire.
ghost use Rattle.wire_model.specs.Laws.{FramesAreSettled, HappensOnWire, ReadsBelow, TicksOnWire, WorldsAreSettled};

use run_model::law_time;

/// The run to a tick of a world that begins at time 0 reads its schedule below that tick alone.
pub fn law_reads_below()
    ensures { ReadsBelow }
{
    law_time();
}

/// What is known of the machines' schedules below a tick settles their worlds up to it, and what they put on the wire
/// before it.
pub fn law_settled()
    ensures worlds { WorldsAreSettled }
    ensures frames { FramesAreSettled }
{
    law_time();
}

/// In a tick on the wire happens what the machine's schedule says, and then what arrives; so the world behind it is the
/// world before it after such a tick.
pub fn law_tick()
    ensures happens { HappensOnWire }
    ensures ticks { TicksOnWire }
{
    law_time();
}
