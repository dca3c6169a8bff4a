//! What the words of a manifest's lines mean, if they are in their ranges.
ghost use Rattle.std.specs.Prelude.{◌≡◌, ◌≤◌, ◌<◌, Option, length, IfOk, IfSome, IsTrue};
ghost use Rattle.std.specs.List.{AllByRecursion};
ghost use Rattle.std.specs.Option.{option_copied, option_map};
ghost use Rattle.aegis_limits.specs.Limits.{most_stack_pages};
ghost use Rattle.aegis_limits.specs.VersionLimits.{most_environments_of};
ghost use Rattle.boot_image.specs.Accepted.{IsOwnerBelow};
ghost use Rattle.boot_image.specs.ImageFaults.{is_name};
ghost use Rattle.line_text.specs.WordView.{words_seen};
ghost use Rattle.boot_manifest.specs.Ranges.{entry_in, manifest_kind, manifest_name, manifest_version, owner_in, owners_in, program_in};
ghost use Rattle.boot_manifest.specs.Answers.{IsText, parts_seen};

use crate::manifest::ManifestEntry;
use crate::statement::EnvParts;
use aegis_limits::{MOST_STACK_PAGES, Version};
use boot_image::{Entry, Kind, NAME_SIZE, is_name};
use line_text::{number, number_within};
use std::alloc::{AllocError, Global};

/// The owner of an empty slot.
const NOBODY: &[u8] = b"-";

/// The version of a number.
pub(crate) fn version_of(word: &[u8]) -> Option<Version>
    ensures { result ≡ manifest_version word.now }
{
    match number(word)? {
        1 => Some(Version::One),
        2 => Some(Version::Two),
        _ => None,
    }
}

/// The owner of a slot: the number of an environment that the version allows, or `-` for an empty slot.
#[tactic(auto, using(std::proofs::lemmas::Grind::common_steps, crate::proofs::OwnerLemmas::some_environments))]
fn owner_of(version: Version, word: &[u8]) -> Option<Option<u8>>
    ensures value { result ≡ owner_in version word.now }
    ensures below { IfSome result (IsOwnerBelow (most_environments_of version)) }
{
    if word == NOBODY {
        return Some(None);
    }
    let last = version.most_environments() as u32 - 1;
    let owner = number_within(word, 0, last)?;
    Some(Some(owner as u8))
}

/// The owners of slots, if each of these words names one.
#[tactic(auto, using(std::proofs::lemmas::Grind::common_steps, crate::proofs::OwnerLemmas::owner_more, crate::proofs::OwnerLemmas::owner_none))]
pub(crate) fn owners_of(
    alloc: Global,
    version: Version,
    words: &[&[u8]],
) -> Result<Option<Vec<Option<u8>>>, AllocError>
    ensures value { IfOk result (λ found. option_map (λ owners. owners.items) found ≡ owners_in version (words_seen words.now)) }
    ensures below { IfOk result (λ found. IfSome found (λ owners. AllByRecursion (IsOwnerBelow (most_environments_of version)) owners.items)) }
    ensures count { IfOk result (λ found. IfSome found (λ owners. length owners.items ≡ length words.now)) }
{
    let mut owners = Vec::new(alloc);
    for word in words {
        match owner_of(version, word) {
            Some(owner) => owners.push(owner)?,
            None => return Ok(None),
        }
    }
    Ok(Some(owners))
}

/// A name in its eight bytes, by the rule of images.
fn name_of(word: &[u8]) -> Option<[u8; NAME_SIZE]>
    ensures value { result ≡ manifest_name word.now }
    ensures rule { IfSome result (λ name. IsTrue (is_name name)) }
{
    if word.len() > NAME_SIZE {
        return None;
    }
    let mut name = [0; NAME_SIZE];
    name[..word.len()].copy_from_slice(word);
    if is_name(&name) { Some(name) } else { None }
}

/// How a body is spelled: at its base, if it has one.
fn kind_of(base: Option<&[u8]>) -> Option<Kind>
    ensures { result ≡ manifest_kind (option_copied base.entry) }
{
    match base {
        Some(word) => number(word).map(|base| Kind::Flat { base }),
        None => Some(Kind::Elf),
    }
}

/// The program of an environment's line.
fn program_of(parts: &EnvParts<'_>) -> Option<Entry>
    ensures value { result ≡ program_in (parts_seen parts.now) }
    ensures name { IfSome result (λ entry. IsTrue (is_name entry.name)) }
    ensures stack { IfSome result (λ entry. entry.stack ≤ most_stack_pages) }
{
    let name = name_of(parts.name)?;
    let kind = kind_of(parts.base)?;
    let stack = number_within(parts.stack, 0, MOST_STACK_PAGES)?;
    let accept = number(parts.accept)?;
    Some(Entry {
        name,
        kind,
        stack,
        accept,
    })
}

/// The entry of an environment's line.
#[tactic(auto, using(std::proofs::lemmas::Grind::common_steps, crate::proofs::TextLemmas::text_utf8))]
pub(crate) fn entry_of(
    alloc: Global,
    parts: &EnvParts<'_>,
) -> Result<Option<ManifestEntry>, AllocError>
    requires { IsText parts.now.file.now }
    ensures { IfOk result (λ found. found ≡ entry_in (parts_seen parts.now)) }
{
    let Some(entry) = program_of(parts) else {
        return Ok(None);
    };
    // The bytes of a text are ASCII, so none of them is replaced.
    let file = String::from_utf8_lossy(alloc, parts.file)?;
    Ok(Some(ManifestEntry { entry, file }))
}
