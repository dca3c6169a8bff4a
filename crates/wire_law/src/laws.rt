//! A machine on a wire is a system.
ghost use Rattle.wire_law.specs.Systems.{MachinesAreSystems};

use wire_model::law_settled;

/// Where each machine starts as its image boots, the worlds of a machine on the wire are those of a system: its image,
/// and a schedule with what its own schedule says and what arrives. So whatever is proved of every system is proved of
/// every machine on a wire.
pub fn law_machines()
    ensures { MachinesAreSystems }
{
    law_settled();
}
