//! The law of coherent rows.
ghost use Rattle.tlb_model.specs.Laws.{EmptiedAreCoherent, GrownAreCoherent, RefilledAreCoherent, RowsHaveTheirWords, RowsSayWhatLeads};

/// A row that fits an environment's VPN says where that leads, and the row of a mapping has in its words the VPN, the
/// environment's number and the page. Rows stay coherent where one is refilled from a mapping that is there, where
/// mappings come and none changes, and where those are emptied whose mapping goes or changes.
pub fn law_coherence()
    ensures rows { RowsSayWhatLeads }
    ensures words { RowsHaveTheirWords }
    ensures refilled { RefilledAreCoherent }
    ensures grown { GrownAreCoherent }
    ensures emptied { EmptiedAreCoherent }
{}
