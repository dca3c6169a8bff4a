//! Why a ledger or a plan is refused.
ghost use Rattle.std.specs.Prelude.{◌≡◌};
ghost use Rattle.ledger_text.specs.Names.{ledger_why_text};

/// Which rule of a ledger or a plan a line breaks. `docs/LEDGER_AUDIT.md` has the rules.
#[derive(Clone, Copy)]
pub enum LedgerWhy {
    /// The line has another form, or stands in another place; or the text ends too early.
    Syntax,
    /// A number passes its limit, or a plan's client doesn't rise or is the scheduler.
    Range,
}

impl LedgerWhy {
    /// The name that is printed.
    pub fn name(self) -> &'static str
        ensures { result.now ≡ ledger_why_text self }
    {
        match self {
            LedgerWhy::Syntax => "Syntax",
            LedgerWhy::Range => "Range",
        }
    }
}
