//! The words of a line as a list that needs no memory.
ghost use Rattle.std.specs.Prelude.{◌≡◌, IfSome, true};
ghost use Rattle.std.specs.List.{list_all};
ghost use Rattle.std.specs.Option.{option_and_then, option_map};
ghost use Rattle.line_text.specs.Characters.{is_text_byte};
ghost use Rattle.line_text.specs.Words.{few, line_words};
ghost use Rattle.line_text.specs.WordView.{words_seen};

use crate::characters::is_text;
use crate::line_words::words_of;
use arrayvec::ArrayVec;

/// The words of a line, if it is a text and has no more words than so many.
pub fn few_words<const MOST: usize>(line: &[u8]) -> Option<ArrayVec<&[u8], MOST>>
    ensures words { option_map (λ words. words_seen words.items) result ≡ option_and_then (few MOST) (line_words line.now) }
    ensures bytes { IfSome result (λ words. list_all (list_all is_text_byte) (words_seen words.items) ≡ true) }
{
    if !is_text(line) {
        return None;
    }
    let mut words = ArrayVec::new();
    for word in words_of(line) {
        if words.is_full() {
            return None;
        }
        words.push(word);
    }
    Some(words)
}
