//! Marks outside quoted texts.
ghost use Rattle.std.specs.Prelude.{◌≡◌, ◌≤◌, length};
ghost use Rattle.asm_parse.specs.Form.{before_mark};
ghost use Rattle.asm_parse.specs.declared.quoting.Quoting.TheVariants.{Outside};

use crate::quoting::Quoting;

/// The place of the first such mark outside quoted texts, or the length where there is none.
pub(crate) fn mark_place(bytes: &[u8], mark: u8) -> usize
    ensures place { result ≡ length (before_mark mark Outside bytes.now) }
    ensures within { result ≤ length bytes.now }
{
    let mut quoting = Quoting::Outside;
    for (place, byte) in bytes.iter().enumerate() {
        if quoting.is_outside() && *byte == mark {
            return place;
        }
        quoting = quoting.behind(*byte);
    }
    bytes.len()
}
