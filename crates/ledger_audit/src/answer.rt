//! What the auditor answers.
/// Whether a ledger keeps the rules.
#[derive(Clone, Copy)]
pub enum AuditAnswer {
    /// Each row, each sum and the end keep them.
    Clean,
    /// A line doesn't.
    Broken {
        /// The number of the first such row's line; where all rows keep the rules, of the first such sum's; and where the
        /// sums do too, of the line that says how the run ended.
        line: u32,
    },
}
