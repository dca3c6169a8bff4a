//! The forms of a schedule's lines.
ghost use Rattle.std.specs.Prelude.{◌≡◌};
ghost use Rattle.std.specs.Option.{option_and_then, option_map};
ghost use Rattle.line_text.specs.Words.{line_words};
ghost use Rattle.boot_schedule.specs.Forms.{event_form, short_form};
ghost use Rattle.boot_schedule.specs.Answers.{parts_seen};

use line_text::few_words;

/// The second word of a packet's line.
const PACKET: &[u8] = b"packet";
/// The second word of an interrupt line's line.
const LINE: &[u8] = b"line";
/// The second word of a revocation's line.
const REVOKE: &[u8] = b"revoke";
/// The most words that a line of some form has.
const MOST_WORDS: usize = 5;

/// The words of a line, by its form.
#[derive(Clone, Copy)]
pub(crate) enum Parts<'a> {
    /// `TIME packet BYTES`.
    Packet {
        time: &'a [u8],
        bytes: &'a [u8],
    },
    /// `TIME line NUMBER`.
    Line {
        time: &'a [u8],
        number: &'a [u8],
    },
    /// `TIME revoke ENV COUNT GRACE`.
    Revoke {
        time: &'a [u8],
        env: &'a [u8],
        count: &'a [u8],
        grace: &'a [u8],
    },
}

/// The words of `TIME packet BYTES`, `TIME line NUMBER` or `TIME revoke ENV COUNT GRACE`.
#[tactic(auto, using(crate::proofs::FormLemmas::few_event))]
pub(crate) fn parts_of(text: &[u8]) -> Option<Parts<'_>>
    ensures { option_map parts_seen result ≡ option_and_then event_form (line_words text.now) }
{
    match few_words::<MOST_WORDS>(text)?.as_slice() {
        [time, kind, word] => short_form(time, kind, word),
        [time, kind, env, count, grace] if *kind == REVOKE => Some(Parts::Revoke {
            time,
            env,
            count,
            grace,
        }),
        _ => None,
    }
}

/// The words of `TIME packet BYTES` or `TIME line NUMBER`.
fn short_form<'a>(time: &'a [u8], kind: &[u8], word: &'a [u8]) -> Option<Parts<'a>>
    ensures { option_map parts_seen result ≡ short_form time.entry.now kind.now word.entry.now }
{
    if kind == PACKET {
        Some(Parts::Packet { time, bytes: word })
    } else if kind == LINE {
        Some(Parts::Line { time, number: word })
    } else {
        None
    }
}
