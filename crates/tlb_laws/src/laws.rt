//! The laws of steps over rows.
ghost use Rattle.tlb_laws.specs.Laws.{FindsAreFlat, MissesRefill, RightRefill, RunsAreFlat, TwoRefillsSuffice};

/// A step each of whose accesses finds its row is the step over the mappings, and ends as it.
pub fn law_finds()
    ensures { FindsAreFlat }
{}

/// A step of which an access finds no row ends as a refill at the first such access; where the mappings have none there
/// either, it is the step over the mappings.
pub fn law_misses()
    ensures { MissesRefill }
{}

/// Steps over rows that retire, one after another, are steps over the mappings.
pub fn law_runs()
    ensures { RunsAreFlat }
{}

/// A step has at most two refills.
pub fn law_two_refills()
    ensures { TwoRefillsSuffice }
{}

/// A row for a mapping by which all accesses of a step find their rows, and without which they don't, is that of its
/// first miss.
pub fn law_right_refill()
    ensures { RightRefill }
{}
