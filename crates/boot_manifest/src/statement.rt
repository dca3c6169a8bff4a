//! The forms of a manifest's lines.
ghost use Rattle.std.specs.Prelude.{◌≡◌, ◌≤◌, length, IfSome};
ghost use Rattle.std.specs.Option.{option_and_then, option_copied, option_map};
ghost use Rattle.aegis_limits.specs.Limits.{most_slots};
ghost use Rattle.line_text.specs.Words.{line_words};
ghost use Rattle.line_text.specs.WordView.{words_seen};
ghost use Rattle.boot_manifest.specs.Forms.{count_form, env_form, program_form, slots_form};
ghost use Rattle.boot_manifest.specs.Answers.{AreTexts, IsText, parts_seen};

use aegis_limits::MOST_SLOTS;
use line_text::few_words;

/// The first word of the slots' line.
const SLOTS: &[u8] = b"slots";
/// The first word of an environment's line.
const ENV: &[u8] = b"env";
/// The word of a body that is the program's memory.
const FLAT: &[u8] = b"flat";
/// The word of a body that is an ELF file.
const ELF: &[u8] = b"elf";
/// The most words that a line of some form has: `slots` and an owner for each slot.
pub(crate) const MOST_WORDS: usize = 1 + MOST_SLOTS;

/// The words of an environment's line. A flat body has a base.
#[derive(Clone, Copy)]
pub(crate) struct EnvParts<'a> {
    pub(crate) name: &'a [u8],
    pub(crate) base: Option<&'a [u8]>,
    pub(crate) stack: &'a [u8],
    pub(crate) accept: &'a [u8],
    pub(crate) file: &'a [u8],
}

/// The N of a line `KEY N`.
#[tactic(auto, using(crate::proofs::ReadingLemmas::few_count))]
pub(crate) fn count_word<'a>(key: &[u8], text: &'a [u8]) -> Option<&'a [u8]>
    ensures { option_copied result ≡ option_and_then (count_form key.now) (line_words text.now) }
{
    match few_words::<MOST_WORDS>(text)?.as_slice() {
        [first, word] if *first == key => Some(word),
        _ => None,
    }
}

/// The words of `env NAME flat BASE STACK ACCEPT FILE` or `env NAME elf STACK ACCEPT FILE`.
#[tactic(auto, using(crate::proofs::ReadingLemmas::few_env))]
pub(crate) fn env_parts(text: &[u8]) -> Option<EnvParts<'_>>
    ensures parts { option_map parts_seen result ≡ option_and_then env_form (line_words text.now) }
    ensures bytes { IfSome result (λ parts. IsText parts.file.now) }
{
    match few_words::<MOST_WORDS>(text)?.as_slice() {
        [first, words @ ..] if *first == ENV => program_form(words),
        _ => None,
    }
}

/// Each X of `slots X ..`, if they are one to sixty-four.
pub(crate) fn slots_form<'w, 'a>(words: &'w [&'a [u8]]) -> Option<&'w [&'a [u8]]>
    ensures words { option_map (λ words. words_seen words.now) result ≡ slots_form (words_seen words.now) }
    ensures some { IfSome result (λ words. 1 ≤ length words.now) }
    ensures most { IfSome result (λ words. length words.now ≤ most_slots) }
{
    match words {
        [first, slots @ ..] if *first == SLOTS && (1..=MOST_SLOTS).contains(&slots.len()) => {
            Some(slots)
        }
        _ => None,
    }
}

/// The words of `NAME flat BASE STACK ACCEPT FILE` or `NAME elf STACK ACCEPT FILE`.
fn program_form<'a>(words: &[&'a [u8]]) -> Option<EnvParts<'a>>
    ensures parts { option_map parts_seen result ≡ program_form (words_seen words.now) }
    ensures bytes { AreTexts (words_seen words.now) → IfSome result (λ parts. IsText parts.file.now) }
{
    match words {
        [name, kind, base, stack, accept, file] if *kind == FLAT => Some(EnvParts {
            name,
            base: Some(base),
            stack,
            accept,
            file,
        }),
        [name, kind, stack, accept, file] if *kind == ELF => Some(EnvParts {
            name,
            base: None,
            stack,
            accept,
            file,
        }),
        _ => None,
    }
}
