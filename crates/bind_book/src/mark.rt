//! The mark of a page.

/// Where rows may stand that lead to a page, by their places among the rows of all environments.
#[derive(Clone, Copy)]
pub(crate) enum Mark {
    /// No row leads to the page.
    Nowhere,
    /// No row but the one at this place leads to the page.
    At(u32),
    /// Any row may lead to the page.
    Anywhere,
}
