//! Claims, and why they are refused.
use packet_ring::Buffer;

/// A claim that stands, without its filter.
#[derive(Clone, Copy)]
pub struct Claim {
    /// Its number: claims are numbered from 0 in the order in which they are made, and no number is used again.
    pub id: u32,
    /// The environment that made it.
    pub env: u8,
    /// The page into which its packets go.
    pub page: u32,
    /// The buffer of that page into which its next packet goes.
    pub next: Buffer,
}

/// Why a claim is refused.
#[derive(Clone, Copy)]
pub enum ClaimNo {
    /// The filter overlaps that of another environment's claim. It has this number, the lowest if there are more.
    Overlap(u32),
    /// The environment has eight claims.
    Full,
}
