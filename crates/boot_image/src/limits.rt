//! The limits that only images have. `docs/FORMATS.md`, "Image", has them; the kernel's are in `aegis_limits`.

/// The first address at which a body may stand.
pub(crate) const LEAST_BASE: u32 = 0x2000;
/// The end of the addresses at which a body may stand.
pub(crate) const BODY_LIMIT: u64 = 0x7FF0_0000;
