//! The lines of a text, each with its end.
ghost use Rattle.std.specs.Prelude.{◌≡◌, ◌<◌, ◌≤◌, ◌∷◌, [], IfSome, length, take, drop};
ghost use Rattle.line_text.specs.Lines.{pieces_of, without_end};

use memchr::memchr;

/// The length of a text's first line with its line feed, where it has one.
pub(crate) fn piece_length(text: &[u8]) -> usize
    requires { 0 < length text.now }
    ensures some { 0 < result }
    ensures within { result ≤ length text.now }
    ensures cut { pieces_of text.now ≡ take result text.now ∷ pieces_of (drop result text.now) }
    ensures one { pieces_of (take result text.now) ≡ take result text.now ∷ [] }
{
    match memchr(b'\n', text) {
        Some(place) => place + 1,
        None => text.len(),
    }
}

/// A line without its end, if that is a line feed alone.
pub(crate) fn before_line_feed(piece: &[u8]) -> Option<&[u8]>
    ensures { IfSome result (λ line. line.now ≡ without_end piece.now) }
{
    if piece.ends_with(b"\r\n") {
        None
    } else if piece.ends_with(b"\n") {
        Some(&piece[..piece.len() - 1])
    } else {
        None
    }
}
