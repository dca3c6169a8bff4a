//! The answers to kernel calls, and their codes.
ghost use Rattle.std.specs.Prelude.{◌≡◌};

use page_book::PageNo;
use revocation_book::LoadNo;

/// Why a kernel call is refused: the code that the caller finds in register 2 (`docs/KERNEL.md`). The code of a call that
/// is granted is 0.
#[derive(Clone, Copy)]
pub enum Code {
    NoPage = 1,
    Taken,
    NoneFree,
    NotOwner,
    NoRight,
    BadVpn,
    Guaranteed,
    NoEnv,
    NotAccepted,
    NoSlice,
    SlotTaken,
    NotHolder,
    BadFilter,
    Overlap,
    NoFilter,
    BadHandler,
    LineTaken,
    ConsoleFull,
    Full,
    BadCall,
    BadPointer,
}

impl Code {
    ghost use Rattle.world_model.specs.Code.{code_number};

    /// Its number, 1 to 21.
    pub fn number(self) -> u32
        ensures { result ≡ code_number self }
    {
        self as u32
    }
}

impl From<LoadNo> for Code {
    ghost use Rattle.world_model.specs.BackupCalls.{code_of_load};

    /// What a caller is told of a refusal by the book of revocations.
    fn from(no: LoadNo) -> Code
        ensures { result ≡ code_of_load no }
    {
        match no {
            LoadNo::Loaded => Code::Taken,
            LoadNo::Full => Code::Full,
        }
    }
}

impl From<PageNo> for Code {
    ghost use Rattle.world_model.specs.Code.{code_of};

    /// What a caller is told of a refusal by the book of pages.
    fn from(no: PageNo) -> Code
        ensures { result ≡ code_of no }
    {
        match no {
            PageNo::NoPage => Code::NoPage,
            PageNo::Taken => Code::Taken,
            PageNo::NoneFree => Code::NoneFree,
            PageNo::NotOwner => Code::NotOwner,
            PageNo::NoRight => Code::NoRight,
            PageNo::Guaranteed => Code::Guaranteed,
        }
    }
}
