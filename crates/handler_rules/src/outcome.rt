//! How a handler is refused, and how it ends.
/// A word that may not stand in a handler.
#[derive(Clone, Copy)]
pub struct HandlerFault {
    /// The number of the first bad word, from 0; 64 where there are more than 64 words.
    pub at: u32,
}

/// How a run ended.
#[derive(Clone, Copy)]
pub enum HandlerEnd {
    /// By BREAK, or behind the last word.
    Done,
    /// By an access to what a handler doesn't reach, or by a reply that may not be made. What it stored and replied
    /// with before stays.
    Fault,
}
