//! The reader of manifests, line by line.
ghost use Rattle.std.specs.Prelude.{◌≡◌, ◌<◌, ◌≤◌, ◌^◌, [], ◌∷◌, Option, None, Ok, length, IfErr, IfOk, OnOk};
ghost use Rattle.std.specs.List.{AllByRecursion};
ghost use Rattle.aegis_limits.specs.Limits.{most_slots};
ghost use Rattle.aegis_limits.specs.VersionLimits.{most_environments_of};
ghost use Rattle.boot_image.specs.Accepted.{IsOwnerBelow};
ghost use Rattle.line_text.specs.Failing.{Gives, IsFound, fault_at, in_line};
ghost use Rattle.line_text.specs.LineView.{line_value};
ghost use Rattle.line_text.specs.Statements.{end_of};
ghost use Rattle.line_text.specs.declared.failure.Failure.TheVariants.{Fault};
ghost use Rattle.boot_manifest.specs.declared.fault.ManifestWhy.TheVariants.{Syntax};
ghost use Rattle.boot_manifest.specs.Limited.{IsEntry};
ghost use Rattle.boot_manifest.specs.Reading.{count_said, entries_said, entry_said, lines_fault, manifest_fault, manifest_of, slots_said, version_lines, fault_behind};

use crate::fault::ManifestWhy;
use crate::manifest::{Manifest, ManifestEntry};
use crate::ranges::{entry_of, owners_of, version_of};
use crate::statement::{MOST_WORDS, count_word, env_parts, slots_form};
use aegis_limits::{LEAST_PAGES, LEAST_QUANTUM, MOST_QUANTUM, Version};
use line_text::{
    Failure, Line, LineFault, Statements, TextFailure, end_of, few_words, number_within,
    statements_of,
};
use std::alloc::Global;

/// Reads a manifest, or answers its first fault, unless memory runs out. `docs/FORMATS.md`, "Manifest", has the
/// format and the faults in their order.
#[tactic(auto, unfolding(crate::specs::Reading::manifest_fault, crate::specs::Reading::manifest_of))]
pub fn read_manifest(alloc: Global, text: &[u8]) -> Result<Manifest, TextFailure<ManifestWhy>>
    requires { length text.now < 2 ^ 27 }
    ensures ok { IfOk result (λ manifest. (manifest_fault text.now ≡ None) × (manifest ≡ manifest_of text.now)) }
    ensures err { IfErr result (IsFound (manifest_fault text.now)) }
{
    let mut lines = statements_of(text);
    let (version, line) = read_version(&mut lines, text)?;
    let pages = read_count(&line, b"pages", LEAST_PAGES, version.most_pages())?;
    let line = next_line(&mut lines, text)?;
    let quantum = read_count(&line, b"quantum", LEAST_QUANTUM, MOST_QUANTUM)?;
    let line = next_line(&mut lines, text)?;
    let slots = read_slots(alloc, version, &line)?;
    let entries = read_entries(alloc, version, lines, text)?;
    Ok(Manifest {
        version,
        pages,
        quantum,
        slots,
        entries,
    })
}

/// The next line that isn't empty, or the fault of a text that ends too early.
fn next_line<'a>(
    lines: &mut Statements<'a>,
    text: &[u8],
) -> Result<Line<'a>, TextFailure<ManifestWhy>>
    requires { length text.now < 2 ^ 27 }
    ensures some { IfOk result (λ line. lines.old ≡ line_value line ∷ lines.new) }
    ensures none { IfErr result (λ fault. (lines.old ≡ []) × (fault ≡ Fault (fault_at (end_of text.now) Syntax))) }
{
    lines.next().ok_or_else(|| ends_early(text))
}

/// The version, and the line behind the one that says it. Without a line `version N` the version is the first one, and
/// the line is the text's first.
fn read_version<'a>(
    lines: &mut Statements<'a>,
    text: &[u8],
) -> Result<(Version, Line<'a>), TextFailure<ManifestWhy>>
    requires { length text.now < 2 ^ 27 }
    ensures ok { IfOk result (λ found. version_lines lines.old ≡ Ok (record { version = found.0; lines = line_value found.1 ∷ lines.new })) }
    ensures err { IfErr result (IsFound (fault_behind (end_of text.now) (version_lines lines.old))) }
{
    let line = next_line(lines, text)?;
    let Some(word) = count_word(b"version", line.text) else {
        return Ok((Version::One, line));
    };
    let version = version_of(word).ok_or(line.breaks(ManifestWhy::Range))?;
    Ok((version, next_line(lines, text)?))
}

/// The number of a line `KEY N`, from the least to the most.
fn read_count(
    line: &Line<'_>,
    key: &[u8],
    least: u32,
    most: u32,
) -> Result<u32, TextFailure<ManifestWhy>>
    ensures said { Gives (λ n. n) result (in_line line.now.number (count_said key.now least most line.now.text.now)) }
    ensures within { IfOk result (λ n. (least ≤ n) × (n ≤ most)) }
{
    let word = count_word(key, line.text).ok_or(line.breaks(ManifestWhy::Syntax))?;
    number_within(word, least, most).ok_or(line.breaks(ManifestWhy::Range))
}

/// The owners of the slots' line.
fn read_slots(
    alloc: Global,
    version: Version,
    line: &Line<'_>,
) -> Result<Vec<Option<u8>>, TextFailure<ManifestWhy>>
    ensures said { Gives (λ owners. owners.items) result (in_line line.now.number (slots_said version line.now.text.now)) }
    ensures least { IfOk result (λ owners. 1 ≤ length owners.items) }
    ensures most { IfOk result (λ owners. length owners.items ≤ most_slots) }
    ensures below { IfOk result (λ owners. AllByRecursion (IsOwnerBelow (most_environments_of version)) owners.items) }
{
    let words = few_words::<MOST_WORDS>(line.text).ok_or(line.breaks(ManifestWhy::Syntax))?;
    let slots = slots_form(&words).ok_or(line.breaks(ManifestWhy::Syntax))?;
    owners_of(alloc, version, slots)?.ok_or(line.breaks(ManifestWhy::Range))
}

/// The entries of the environments' lines, of which there is one at least.
fn read_entries(
    alloc: Global,
    version: Version,
    lines: Statements<'_>,
    text: &[u8],
) -> Result<Vec<ManifestEntry>, TextFailure<ManifestWhy>>
    requires { length text.now < 2 ^ 27 }
    ensures fault { IfErr result (IsFound (lines_fault version (end_of text.now) 3 lines.entry)) }
    ensures none { OnOk result (lines_fault version (end_of text.now) 3 lines.entry ≡ None) }
    ensures entries { IfOk result (λ entries. entries.items ≡ entries_said lines.entry) }
    ensures least { IfOk result (λ entries. 1 ≤ length entries.items) }
    ensures most { IfOk result (λ entries. length entries.items ≤ most_environments_of version) }
    ensures limits { IfOk result (λ entries. AllByRecursion IsEntry entries.items) }
{
    let mut entries = Vec::new(alloc);
    for line in lines {
        let entry = read_entry(alloc, &line)?;
        if entries.len() == version.most_environments() {
            return Err(line.breaks(ManifestWhy::Many));
        }
        entries.push(entry)?;
    }
    if entries.is_empty() {
        return Err(ends_early(text));
    }
    Ok(entries)
}

/// The entry of an environment's line.
fn read_entry(alloc: Global, line: &Line<'_>) -> Result<ManifestEntry, TextFailure<ManifestWhy>>
    ensures said { Gives (λ entry. entry) result (in_line line.now.number (entry_said line.now.text.now)) }
    ensures limits { IfOk result IsEntry }
{
    let parts = env_parts(line.text).ok_or(line.breaks(ManifestWhy::Syntax))?;
    entry_of(alloc, &parts)?.ok_or(line.breaks(ManifestWhy::Range))
}

/// That the text ends too early.
fn ends_early(text: &[u8]) -> TextFailure<ManifestWhy>
    requires { length text.now < 2 ^ 27 }
    ensures { result ≡ Fault (fault_at (end_of text.now) Syntax) }
{
    let line = end_of(text);
    let why = ManifestWhy::Syntax;
    Failure::Fault(LineFault { line, why })
}
