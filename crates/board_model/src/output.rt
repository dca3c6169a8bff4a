//! What an environment puts out.
ghost use Rattle.std.specs.Prelude.{◌≡◌, IfOk};
ghost use Rattle.board_model.specs.Shown.{no_output};

use crate::console::Console;
use crate::sent::Sent;
use aegis_limits::OutOfMemory;
use std::alloc::Global;

/// What an environment puts out: what it writes, and what it sends.
#[derive(Drop)]
pub struct Output {
    pub console: Console,
    pub sent: Sent,
}

impl Output {
    /// Nothing yet, and the memory for all that it may hold.
    pub fn new(alloc: Global) -> Result<Output, OutOfMemory>
        ensures { IfOk result (λ output. output ≡ no_output) }
    {
        let console = Console::new(alloc)?;
        let sent = Sent::new(alloc)?;
        Ok(Output { console, sent })
    }
}
