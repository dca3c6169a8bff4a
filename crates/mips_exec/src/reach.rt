//! The bytes that loads and stores name.
ghost use Rattle.std.specs.Prelude.{◌≡◌};
ghost use Rattle.mips_exec.specs.Access.{at, below, place_of, is_aligned};
ghost use Rattle.mips_exec.specs.Step.{named_by};

/// The bytes that a load or store names, all in one aligned word.
#[derive(Clone, Copy)]
pub struct Spot {
    /// The instruction's address, which an exception reports.
    pub address: u32,
    /// The bytes begin at the aligned word that has the address (LWL, LWR, SWL), and not at the address.
    pub down: bool,
    /// How many bytes: 1 to 4.
    pub width: u8,
}

impl Spot {
    /// So many bytes at the address.
    pub fn at(address: u32, width: u8) -> Self
        ensures { result ≡ at address width }
    {
        Spot {
            address,
            down: false,
            width,
        }
    }

    /// So many bytes from the beginning of the aligned word that has the address.
    pub fn below(address: u32, width: u8) -> Self
        ensures { result ≡ below address width }
    {
        Spot {
            address,
            down: true,
            width,
        }
    }

    /// Where the bytes begin.
    pub fn place(self) -> u32
        ensures { result ≡ place_of self }
    {
        if self.down {
            self.address / 4 * 4
        } else {
            self.address
        }
    }

    /// Two bytes begin at a multiple of 2, and four at a multiple of 4.
    pub fn is_aligned(self) -> bool
        ensures { result ≡ is_aligned self }
    {
        if self.width == 4 {
            self.place() % 4 == 0
        } else if self.width == 2 {
            self.place() % 2 == 0
        } else {
            true
        }
    }
}

/// The one load or store of an instruction.
#[derive(Clone, Copy)]
pub enum Access {
    Load(Spot),
    /// A store of the low bytes of the value.
    Store(Spot, u32),
}

impl Access {
    /// The address that the instruction names.
    pub fn address(self) -> u32
        ensures { result ≡ named_by self }
    {
        match self {
            Access::Load(spot) | Access::Store(spot, _) => spot.address,
        }
    }
}
