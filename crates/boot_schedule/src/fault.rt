//! Why a schedule is refused.
ghost use Rattle.boot_schedule.specs.Names.{schedule_why_text};
ghost use Rattle.std.specs.Prelude.{◌≡◌};

/// Which rule of a schedule a line breaks. `docs/FORMATS.md`, "Schedule", has the rules.
#[derive(Clone, Copy)]
pub enum ScheduleWhy {
    /// The line has another form.
    Syntax,
    /// A number is none or passes its limit, or a packet is longer than 1,514 bytes.
    Range,
    /// The bytes of a packet aren't pairs of hexadecimal digits.
    Hex,
    /// The time is before that of the line before.
    Order,
    /// It is the line of a 65,537th event.
    Many,
}

impl ScheduleWhy {
    /// The name that is printed.
    pub fn name(self) -> &'static str
        ensures { result.now ≡ schedule_why_text self }
    {
        match self {
            ScheduleWhy::Syntax => "Syntax",
            ScheduleWhy::Range => "Range",
            ScheduleWhy::Hex => "Hex",
            ScheduleWhy::Order => "Order",
            ScheduleWhy::Many => "Many",
        }
    }
}
