//! The openings `hi(` and `lo(` that stand before an expression.
ghost use Rattle.std.specs.Prelude.{◌≡◌, ◌+◌, ◌≤◌, ◌*◌, [], ◌∷◌, length, IfSome, IfNone};
ghost use Rattle.asm_parse.specs.Expression.{half_of, halves_opened};

/// A half of a value.
#[derive(Clone, Copy)]
pub enum Half {
    /// Bits 31:16.
    High,
    /// Bits 15:0.
    Low,
}

impl Half {
    /// This half of a value.
    fn of(self, value: u32) -> u32
        ensures { result ≡ half_of self value }
    {
        match self {
            Half::High => value >> 16,
            Half::Low => value & 0xffff,
        }
    }
}

/// The halves that an expression takes, the outermost first, as its openings. Contracts see them as their
/// list.
#[derive(Clone, Copy)]
pub struct Openings<'a> {
    /// The bytes that begin with the openings.
    pub bytes: &'a [u8],
    /// The number of openings.
    pub depth: usize,
    ghost counted: { depth ≡ length (halves_opened bytes.now) },
    ghost within: { 3 * depth ≤ length bytes.now },
}

/// The bytes that an opening has: `hi(` or `lo(`.
pub(crate) const OPENING_LENGTH: usize = 3;

impl Openings<'_> {
    ghost use Rattle.std.specs.Prelude.{◌≡◌, ◌==◌, length};
    ghost use Rattle.asm_parse.specs.Expression.{halves_of};
    ghost use Rattle.asm_parse.specs.Seen.{openings_seen};

    /// Whether there is none.
    pub fn is_empty(self) -> bool
        ensures { result ≡ (length (openings_seen self.entry) == 0) }
    {
        self.depth == 0
    }

    /// What the halves leave of a value, the outermost of which is taken last.
    pub fn of(self, value: u32) -> u32
        ensures { result ≡ halves_of (openings_seen self.entry) value }
    {
        let mut taken = value;
        let mut left = self.depth;
        while left > 0 {
            left -= 1;
            let (_, rest) = self.bytes.split_at(OPENING_LENGTH * left);
            if let Some((half, _)) = first_opening(rest) {
                taken = half.of(taken);
            }
        }
        taken
    }
}

/// The number of openings at the front of bytes.
pub(crate) fn opening_count(bytes: &[u8]) -> usize
    ensures count { result ≡ length (halves_opened bytes.now) }
    ensures within { 3 * result ≤ length bytes.now }
{
    let mut count = 0;
    let mut rest = bytes;
    while let Some((_, behind)) = first_opening(rest) {
        count += 1;
        rest = behind;
    }
    count
}

/// The half that bytes open at their front, and what stands behind its opening.
fn first_opening(bytes: &[u8]) -> Option<(Half, &[u8])>
    ensures some { IfSome result (λ first. halves_opened bytes.now ≡ first.0 ∷ halves_opened first.1.now) }
    ensures behind { IfSome result (λ first. 3 + length first.1.now ≡ length bytes.now) }
    ensures none { IfNone result (halves_opened bytes.now ≡ []) }
{
    match bytes {
        [b'h', b'i', b'(', behind @ ..] => Some((Half::High, behind)),
        [b'l', b'o', b'(', behind @ ..] => Some((Half::Low, behind)),
        _ => None,
    }
}
