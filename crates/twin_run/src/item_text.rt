//! The text of an item, and which items are alike.
ghost use Rattle.std.specs.Prelude.{◌≡◌, ◌++◌, [], ◌∷◌, ◌==◌, IfOk, OnOk, codes};
ghost use Rattle.std.specs.List.{flat_map};
ghost use Rattle.line_text.specs.Text.{dec_text};
ghost use Rattle.line_text.specs.WrittenLine.{bytes_text, spaced, text_of};
ghost use Rattle.line_text.specs.declared.line_writing.Word.TheVariants.{Number};
ghost use Rattle.machine_text.specs.Fingerprint.{fingerprint};
ghost use Rattle.run_report.specs.Report.{mode_text};
ghost use Rattle.feed_log.specs.Log.{shown};
ghost use Rattle.twin_run.specs.ItemText.{is_alike, item_text, kind_name, page_or_dash, words_behind};

use aegis_limits::OutOfMemory;
use feed_log::{ItemKind, ItemView};
use line_text::{Word, push_spaced, push_word};
use machine_text::fingerprint;
use std::alloc::Global;
use std::marker::Model;

/// The number that stands for no page.
const NO_PAGE: u32 = u32::MAX;

/// The mode of a page that may be stored to.
const WRITABLE: u32 = 1;

/// The text of an item, without the end of its line. Contracts see it as the list of its bytes.
#[derive(Drop)]
pub struct ItemText {
    bytes: Vec<u8>,
}

impl Model for ItemText {
    ghost use Rattle.std.specs.Prelude.{ℕ, List};

    ghost Value = { List ℕ };

    ghost view = { λ text. text.bytes.items };
}

impl ItemText {
    /// The text of an item.
    #[tactic(auto, unfolding(crate::specs::ItemText::item_text))]
    pub(crate) fn of(alloc: Global, item: ItemView<'_>) -> Result<ItemText, OutOfMemory>
        ensures { IfOk result (λ text. text ≡ item_text (shown item.entry)) }
    {
        let mut bytes = Vec::new(alloc);
        push_word(&mut bytes, Word::Text(kind_name(item.kind)))?;
        push_words_behind(&mut bytes, item)?;
        Ok(ItemText { bytes })
    }

    /// The text that stands for an item past the end.
    pub(crate) fn none(alloc: Global) -> Result<ItemText, OutOfMemory>
        ensures { IfOk result (λ text. text ≡ codes "none") }
    {
        let mut bytes = Vec::new(alloc);
        push_word(&mut bytes, Word::Text(b"none"))?;
        Ok(ItemText { bytes })
    }

    /// Its bytes.
    pub fn bytes(&self) -> &[u8]
        ensures { result.now ≡ self.now }
    {
        self.bytes.as_slice()
    }
}

/// The name of a kind of item.
fn kind_name(kind: ItemKind) -> &'static [u8]
    ensures { result.now ≡ kind_name kind }
{
    match kind {
        ItemKind::Boot => b"boot",
        ItemKind::Step => b"step",
        ItemKind::Start => b"start",
        ItemKind::End => b"end",
        ItemKind::Transfer => b"transfer",
        ItemKind::Killed => b"killed",
        ItemKind::Answer => b"answer",
        ItemKind::Gained => b"gained",
        ItemKind::Lost => b"lost",
        ItemKind::Left => b"left",
        ItemKind::Packet => b"packet",
        ItemKind::Line => b"line",
        ItemKind::Asked => b"asked",
        ItemKind::Taken => b"taken",
    }
}

/// Whether two items are of one kind and have the same numbers and bytes.
pub(crate) fn is_alike(left: ItemView<'_>, right: ItemView<'_>) -> bool
    ensures { result ≡ is_alike (shown left.entry) (shown right.entry) }
{
    kind_name(left.kind) == kind_name(right.kind)
        && left.a == right.a
        && left.b == right.b
        && left.bytes == right.bytes
}

/// A number as a word.
fn number(n: u32) -> Word<'static>
    ensures { result ≡ Number n }
{
    Word::Number(u64::from(n))
}

/// A page as a word, or a dash where its number stands for none.
fn page_or_dash(page: u32) -> Word<'static>
    ensures { text_of result ≡ page_or_dash page }
{
    if page == NO_PAGE {
        Word::Dash
    } else {
        number(page)
    }
}

/// Whether a page may be stored to, in a letter.
fn mode(mode: u32) -> Word<'static>
    ensures { text_of result ≡ mode_text (mode == 1) }
{
    if mode == WRITABLE {
        Word::Text(b"w")
    } else {
        Word::Text(b"r")
    }
}

/// Appends two words, each behind a space.
fn push_pair(out: &mut Vec<u8>, first: Word<'_>, second: Word<'_>) -> Result<(), OutOfMemory>
    ensures { OnOk result (out.new.items ≡ out.old.items ++ flat_map spaced (text_of first.entry ∷ text_of second.entry ∷ [])) }
{
    push_spaced(out, first)?;
    push_spaced(out, second)
}

/// Appends two words and the fingerprint of bytes, each behind a space.
fn push_pair_and_fingerprint(
    out: &mut Vec<u8>,
    first: Word<'_>,
    second: Word<'_>,
    bytes: &[u8],
) -> Result<(), OutOfMemory>
    ensures { OnOk result (out.new.items ≡ out.old.items ++ flat_map spaced (text_of first.entry ∷ text_of second.entry ∷ fingerprint bytes.now ∷ [])) }
{
    push_pair(out, first, second)?;
    push_spaced(out, Word::Text(&fingerprint(bytes)))
}

/// Appends two numbers and bytes, each behind a space.
fn push_pair_and_bytes(
    out: &mut Vec<u8>,
    first: u32,
    second: u32,
    bytes: &[u8],
) -> Result<(), OutOfMemory>
    ensures { OnOk result (out.new.items ≡ out.old.items ++ flat_map spaced (dec_text first ∷ dec_text second ∷ bytes_text bytes.now ∷ [])) }
{
    push_pair(out, number(first), number(second))?;
    push_spaced(out, Word::Bytes(bytes))
}

/// Appends what is shown behind the name of an item's kind.
fn push_words_behind(out: &mut Vec<u8>, item: ItemView<'_>) -> Result<(), OutOfMemory>
    ensures { OnOk result (out.new.items ≡ out.old.items ++ flat_map spaced (words_behind item.entry.kind item.entry.a item.entry.b item.entry.bytes.now)) }
{
    let (a, b) = (item.a, item.b);
    match item.kind {
        ItemKind::Step | ItemKind::Start | ItemKind::End => Ok(()),
        ItemKind::Boot => push_spaced(out, Word::Text(&fingerprint(item.bytes))),
        ItemKind::Killed => push_spaced(out, Word::Text(b"excess")),
        ItemKind::Lost | ItemKind::Line => push_spaced(out, number(a)),
        ItemKind::Answer | ItemKind::Asked => push_pair(out, number(a), number(b)),
        ItemKind::Taken => push_pair(out, number(a), page_or_dash(b)),
        ItemKind::Packet => push_pair(out, number(a), Word::Bytes(item.bytes)),
        ItemKind::Left => push_pair_and_bytes(out, a, b, item.bytes),
        ItemKind::Transfer => push_pair_and_fingerprint(out, number(a), number(b), item.bytes),
        ItemKind::Gained => push_pair_and_fingerprint(out, number(a), mode(b), item.bytes),
    }
}
