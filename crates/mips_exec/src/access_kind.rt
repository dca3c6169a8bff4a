//! What an access to memory is for, and what it raises (`docs/MACHINE.md`, "Loads, stores and exceptions").
ghost use Rattle.std.specs.Prelude.{◌≡◌};
ghost use Rattle.mips_exec.specs.AccessKind.{address_error, bus_error, is_store, miss};

use crate::exception::ExcCode;

/// Users name the addresses below this one.
pub const USER_END: u32 = 0x8000_0000;

/// What memory is asked for.
#[derive(Clone, Copy)]
pub enum AccessKind {
    /// The instruction to run.
    Fetch,
    /// Bytes for a register.
    Load,
    /// To take bytes of a register.
    Store,
}

impl AccessKind {
    /// Whether it stores.
    #[inline(always)]
    pub fn is_store(self) -> bool
        ensures { result ≡ is_store self }
    {
        matches!(self, AccessKind::Store)
    }

    /// What an address raises that users may not name.
    #[inline(always)]
    pub fn address_error(self) -> ExcCode
        ensures { result ≡ address_error self }
    {
        match self {
            AccessKind::Fetch | AccessKind::Load => ExcCode::Adel,
            AccessKind::Store => ExcCode::Ades,
        }
    }

    /// What an address raises that leads nowhere.
    #[inline(always)]
    pub fn miss(self) -> ExcCode
        ensures { result ≡ miss self }
    {
        match self {
            AccessKind::Fetch | AccessKind::Load => ExcCode::Tlbl,
            AccessKind::Store => ExcCode::Tlbs,
        }
    }

    /// What an address raises whose page physical memory hasn't got.
    #[inline(always)]
    pub fn bus_error(self) -> ExcCode
        ensures { result ≡ bus_error self }
    {
        match self {
            AccessKind::Fetch => ExcCode::Ibe,
            AccessKind::Load | AccessKind::Store => ExcCode::Dbe,
        }
    }
}
