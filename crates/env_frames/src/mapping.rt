//! A guaranteed mapping.
/// A guaranteed mapping: a page of physical memory that an environment sees.
#[derive(Clone, Copy, Default)]
pub struct Mapping {
    /// The VPN at which the environment sees the page: the addresses of its bytes over `PAGE_SIZE`.
    pub vpn: u32,
    /// The number of the page in physical memory.
    pub page: u32,
    /// Whether the environment may store to the page.
    pub writable: bool,
}
