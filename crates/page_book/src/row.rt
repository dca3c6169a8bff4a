//! What the kernel knows of a page.
ghost use Rattle.std.specs.Prelude.{◌≡◌, Some};
ghost use Rattle.page_book.specs.Row.{is_free, is_guaranteed, owner_of, belongs_to, gives_right, alloc_refusal, change_refusal, bind_refusal, released};

use crate::refusal::PageNo;

/// The capability words of a page, by which others than its owner may bind it. The word 0 gives nobody a right
/// (`docs/KERNEL.md`, "Pages").
#[derive(Clone, Copy)]
pub struct Capabilities {
    /// Who presents this word may bind the page read-only.
    pub read: u64,
    /// Who presents this word may bind the page, read-only or writable.
    pub write: u64,
}

impl Capabilities {
    /// Whether who presents the word may bind the page so.
    fn gives_right(self, writable: bool, word: u64) -> bool
        ensures { result ≡ gives_right self writable word }
    {
        word != 0 && (word == self.write || (!writable && word == self.read))
    }
}

/// Whose a page is.
#[derive(Clone, Copy)]
pub enum PageRow {
    /// Nobody's.
    Free,
    /// A guaranteed page of an environment, which has it from its boot to its death. Nobody may bind it.
    Guaranteed { owner: u8 },
    /// A page that its owner allocated, and may bind, free or give other words.
    Owned { owner: u8, words: Capabilities },
}

impl PageRow {
    /// Whether the page is nobody's.
    pub fn is_free(self) -> bool
        ensures { result ≡ is_free self }
    {
        matches!(self, PageRow::Free)
    }

    /// Whether the page is a guaranteed one of an environment.
    pub fn is_guaranteed(self) -> bool
        ensures { result ≡ is_guaranteed self }
    {
        matches!(self, PageRow::Guaranteed { .. })
    }

    /// The environment whose page it is, guaranteed or not; none if it is free.
    pub fn owner(self) -> Option<u8>
        ensures { result ≡ owner_of self }
    {
        match self {
            PageRow::Free => None,
            PageRow::Guaranteed { owner } | PageRow::Owned { owner, .. } => Some(owner),
        }
    }

    /// Whether the page is this environment's, guaranteed or not.
    pub fn belongs_to(self, env: u8) -> bool
        ensures { result ≡ belongs_to env self }
    {
        match self {
            PageRow::Free => false,
            PageRow::Guaranteed { owner } => owner == env,
            PageRow::Owned { owner, .. } => owner == env,
        }
    }

    /// Why the page can't be allocated.
    pub fn alloc_refusal(self) -> Option<PageNo>
        ensures { result ≡ alloc_refusal (Some self) }
    {
        if self.is_free() {
            None
        } else {
            Some(PageNo::Taken)
        }
    }

    /// Why the environment can't free the page, or give it other words.
    pub fn change_refusal(self, env: u8) -> Option<PageNo>
        ensures { result ≡ change_refusal env (Some self) }
    {
        match self {
            PageRow::Owned { owner, .. } if owner == env => None,
            PageRow::Guaranteed { owner } if owner == env => Some(PageNo::Guaranteed),
            _ => Some(PageNo::NotOwner),
        }
    }

    /// Why the environment, which presents a word, can't bind the page.
    pub fn bind_refusal(self, env: u8, writable: bool, word: u64) -> Option<PageNo>
        ensures { result ≡ bind_refusal env writable word (Some self) }
    {
        match self {
            PageRow::Owned { owner, words } if owner == env || words.gives_right(writable, word) =>
                None,
            PageRow::Guaranteed { owner } if owner == env => Some(PageNo::Guaranteed),
            _ => Some(PageNo::NoRight),
        }
    }

    /// The row once the environment is gone.
    pub(crate) fn released(self, env: u8) -> PageRow
        ensures { result ≡ released env self }
    {
        if self.belongs_to(env) {
            PageRow::Free
        } else {
            self
        }
    }
}
