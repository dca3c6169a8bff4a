//! Blanks at the end of bytes.
ghost use Rattle.std.specs.Prelude.{◌≡◌, ◌≤◌, length};
ghost use Rattle.std.specs.List.{suffix_len};
ghost use Rattle.line_text.specs.Characters.{is_blank};

use line_text::is_blank;

/// How many blanks stand at the end.
#[tactic(auto, using(std::proofs::lemmas::List::Sums::suffix_len_is))]
pub(crate) fn blanks_behind(bytes: &[u8]) -> usize
    ensures count { result ≡ suffix_len is_blank bytes.now }
    ensures within { result ≤ length bytes.now }
{
    let mut left = bytes.len();
    while left > 0 && is_blank(bytes[left - 1]) {
        left -= 1;
    }
    bytes.len() - left
}
