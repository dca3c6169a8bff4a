//! Why a call on a page is refused.
/// Why a call on a page is refused (`docs/KERNEL.md`, "Kernel calls").
#[derive(Clone, Copy)]
pub enum PageNo {
    /// There is no page of this number.
    NoPage,
    /// The page has an owner.
    Taken,
    /// No page is free.
    NoneFree,
    /// The page isn't the caller's.
    NotOwner,
    /// The word gives no right to the page.
    NoRight,
    /// The page is guaranteed to the caller.
    Guaranteed,
}
