//! What the runner's next step does to the world.
ghost use Rattle.std.specs.Prelude.{◌≡◌};
ghost use Rattle.mips_exec.specs.Access.{low_bytes};

use std::marker::Model;

/// The bytes of a store, of which there are at most four.
#[derive(Drop)]
pub struct Stored {
    bytes: [u8; 4],
    width: u8,
}

impl Model for Stored {
    ghost use Rattle.std.specs.Prelude.{ℕ, ◌≤◌, List, take};

    ghost Value = { List ℕ };

    ghost view = { λ s. take s.width s.bytes };

    ghost invariant = { λ s. s.width ≤ 4 };
}

impl Stored {
    /// The low bytes of a value, so many, the lowest first; it has four.
    pub fn low(width: u8, value: u32) -> Stored
        ensures { result ≡ low_bytes width value }
    {
        Stored {
            bytes: value.to_le_bytes(),
            width: width.min(4),
        }
    }

    /// The bytes.
    pub fn bytes(&self) -> &[u8]
        ensures { result.now ≡ self.now }
    {
        &self.bytes[..usize::from(self.width)]
    }
}

/// What the runner's next step does to the world, as far as others see it.
#[derive(Drop)]
pub enum NextAct {
    /// It changes the runner alone.
    Aside,
    /// It stores bytes into a page that isn't guaranteed, at an offset.
    Stores {
        page: u32,
        offset: u32,
        bytes: Stored,
    },
    /// It calls the kernel.
    Calls,
    /// It is the runner's death.
    Dies,
}
