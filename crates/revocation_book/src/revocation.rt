//! What is asked of environments, and what is taken from them.
/// What an environment is asked for and hasn't given back yet (`docs/KERNEL.md`, "Revocation").
#[derive(Clone, Copy)]
pub struct Pending {
    /// How many pages it still has to free, at least 1.
    pub outstanding: u32,
    /// The tick at which the kernel takes as many.
    pub deadline: u32,
}

/// A page that is taken from an environment.
#[derive(Clone, Copy, Default)]
pub struct Taking {
    /// The environment.
    pub env: u8,
    /// The page.
    pub page: u32,
    /// The backup that gets a copy of it, if one is loaded.
    pub backup: Option<u32>,
}

/// Why a page isn't loaded as a backup.
#[derive(Clone, Copy)]
pub enum LoadNo {
    /// It is loaded already.
    Loaded,
    /// The environment has 64 backups.
    Full,
}
