//! Interrupt lines.
ghost use Rattle.sharing_law.specs.Lines.{LinesAreTaken};

/// Who owns an interrupt line took it by a granted call of its own, and has had it ever since.
pub fn law_lines()
    ensures { LinesAreTaken }
{}
