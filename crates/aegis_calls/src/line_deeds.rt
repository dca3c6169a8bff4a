//! What granted calls do to interrupt lines.
ghost use Rattle.std.specs.Prelude.{◌≡◌, ◌<◌, IfSome};
ghost use Rattle.external_event.specs.Limits.{lines};
ghost use Rattle.board_model.specs.Sound.{IsLiving};

use crate::board::Board;

impl Board {
    ghost use Rattle.board_model.specs.Doing.{board_with_line};

    /// A line is another's from now on, who lives, or nobody's.
    pub(crate) fn set_line(&mut self, line: u32, owner: Option<u8>)
        requires there { line < lines }
        requires lives { IfSome owner (IsLiving self.old.roster.list) }
        ensures { self.new ≡ board_with_line self.old line owner }
    {
        self.lines.set(line as u8, owner);
    }
}
