//! The laws of the TLB's course.
ghost use Rattle.tlb_course.specs.Fills.{TicksFillFew};
ghost use Rattle.tlb_course.specs.Further.{CachesGoOn, WorldsGoOn};

/// Ticks behind ticks are so many ticks: of the world, and of the TLB beside it.
pub fn law_further()
    ensures worlds { WorldsGoOn }
    ensures caches { CachesGoOn }
{}

/// Whatever a guest does, a tick refills at most two rows, from guaranteed mappings and bindings together, and forwards at
/// most one miss, all of one environment (`docs/MACHINE.md`, "The TLB under the kernel").
pub fn law_fills()
    ensures { TicksFillFew }
{}
