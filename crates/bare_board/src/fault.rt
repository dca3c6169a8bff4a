//! What is wrong with a flat file.
ghost use Rattle.std.specs.Prelude.{◌≡◌};
ghost use Rattle.bare_board.specs.Faults.{bare_fault, bare_fault_name, bare_fault_place};

use crate::loading::RAM_SIZE;

/// Why a file isn't run.
#[derive(Clone, Copy)]
pub enum BareFault {
    /// It has no byte.
    Empty,
    /// It has more bytes than physical memory.
    TooBig,
}

impl BareFault {
    /// The name that is printed.
    pub fn name(self) -> &'static str
        ensures { result.now ≡ bare_fault_name self }
    {
        match self {
            BareFault::Empty => "Empty",
            BareFault::TooBig => "TooBig",
        }
    }

    /// The byte of the file that is missing, or the first that is too much.
    pub fn place(self) -> u32
        ensures { result ≡ bare_fault_place self }
    {
        match self {
            BareFault::Empty => 0,
            BareFault::TooBig => RAM_SIZE as u32,
        }
    }
}

/// The fault of a file, if it has one.
pub(crate) fn fault_of(file: &[u8]) -> Option<BareFault>
    ensures { result ≡ bare_fault file.now }
{
    if file.is_empty() {
        Some(BareFault::Empty)
    } else if file.len() > RAM_SIZE {
        Some(BareFault::TooBig)
    } else {
        None
    }
}
