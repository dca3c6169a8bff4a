//! A binding.
/// A page of physical memory that an environment bound to one of its VPNs (`docs/KERNEL.md`, "Bindings").
#[derive(Clone, Copy, Default)]
pub struct Binding {
    /// The VPN at which the environment sees the page, below `VPN_END`: the addresses of its bytes over `PAGE_SIZE`.
    pub vpn: u32,
    /// The number of the page in physical memory, below `MOST_PAGES`.
    pub page: u32,
    /// Whether the environment may store to the page.
    pub writable: bool,
}
