//! What holds of the words of handlers.
ghost use Rattle.handler_rules.specs.Laws.{FirstBadIsFirst};

/// Law: of at most 64 words the first bad one is bad, and none before it is; there is none where no word is bad.
pub fn law_first_bad()
    ensures { FirstBadIsFirst }
{}
