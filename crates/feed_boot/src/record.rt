//! The record of an environment.
ghost use Rattle.std.specs.Prelude.{◌≡◌, ◌++◌, ◌<◌, IfOk, OnOk, option_map, slice_get};
ghost use Rattle.std.specs.List.{AllByRecursion, flat_map};
ghost use Rattle.frame_store.specs.Pages.{word_bytes};
ghost use Rattle.feed_log.specs.Views.{IsFit, IsRecordFit, page_text, record_text};
ghost use Rattle.feed_log.specs.Log.{with_items};
ghost use Rattle.world_model.specs.View.{view_seen};
ghost use Rattle.run_model.specs.Boot.{boot_items, boot_world, kept_of};

use aegis_limits::OutOfMemory;
use boot_image::{Image, Program};
use byteorder::{ByteOrder, LittleEndian};
use feed_log::{FeedLog, ItemKind, ItemView};
use std::alloc::Global;
use world_model::{PageView, WorldView};

/// Appends the bytes of a word, the lowest first.
fn push_word(out: &mut Vec<u8>, word: u32) -> Result<(), OutOfMemory>
    ensures { OnOk result (out.new.items ≡ out.old.items ++ word_bytes word) }
{
    let mut bytes = [0; 4];
    LittleEndian::write_u32(&mut bytes, word);
    out.extend_from_slice(&bytes)?;
    Ok(())
}

/// Appends a guaranteed page: its VPN and its mode as words, and its bytes.
fn push_page(out: &mut Vec<u8>, page: PageView<'_>) -> Result<(), OutOfMemory>
    ensures { OnOk result (out.new.items ≡ out.old.items ++ page_text (view_seen page.entry)) }
{
    push_word(out, page.vpn)?;
    push_word(out, u32::from(page.writable))?;
    out.extend_from_slice(page.bytes)?;
    Ok(())
}

/// Appends the guaranteed pages of an environment, by rising VPN.
fn push_pages<V: WorldView>(out: &mut Vec<u8>, view: &V, env: u8) -> Result<(), OutOfMemory>
    requires { env < (V.world view.now).count }
    ensures { OnOk result (out.new.items ≡ out.old.items ++ flat_map page_text ((V.world view.now).solos env).kept) }
{
    for place in 0..view.kept_count(env) {
        if let Some(page) = view.kept_page(env, place) {
            push_page(out, page)?;
        }
    }
    Ok(())
}

/// The bytes of an environment's record: its number, name, entry and mask, and its guaranteed pages.
fn record_bytes<V: WorldView>(
    alloc: Global,
    program: &Program<'_>,
    view: &V,
    env: u8,
) -> Result<Vec<u8>, OutOfMemory>
    requires { env < (V.world view.now).count }
    ensures { IfOk result (λ bytes. bytes.items ≡ record_text env program.now.name program.now.body.entry program.now.accept ((V.world view.now).solos env).kept) }
{
    let mut bytes = Vec::new(alloc);
    bytes.push(env)?;
    bytes.extend_from_slice(&program.name)?;
    push_word(&mut bytes, program.body.entry)?;
    push_word(&mut bytes, program.accept)?;
    push_pages(&mut bytes, view, env)?;
    Ok(bytes)
}

/// Law: a program's record is fit to be shown: its words are words, its name has eight bytes and its pages 4,096.
fn law_fit(program: &Program<'_>, entry: u32, accept: u32)
    requires entry { entry ≡ program.now.body.entry }
    requires accept { accept ≡ program.now.accept }
    ensures { IsRecordFit program.now.name program.now.body.entry program.now.accept (kept_of program.now) }
{
    let _ = &program.name;
}

/// The program of this number, if the image has one.
fn program_of<'a>(image: &'a Image<'_>, env: u8) -> Option<&'a Program<'a>>
    ensures { option_map (λ p. p.now) result ≡ slice_get image.now.programs env }
{
    image.programs.get(usize::from(env))
}

/// Tells an environment its record at the end of a log, if the image has a program of this number. The view shows the
/// world that the image boots.
pub fn tell_record<V: WorldView>(
    alloc: Global,
    image: &Image<'_>,
    view: &V,
    log: &mut FeedLog,
    env: u8,
) -> Result<(), OutOfMemory>
    requires { V.world view.now ≡ boot_world image.now }
    ensures told { OnOk result (log.new ≡ with_items log.old (boot_items image.now env)) }
    ensures fit { OnOk result (AllByRecursion IsFit (boot_items image.now env)) }
{
    let Some(program) = program_of(image, env) else {
        return Ok(());
    };
    law_fit(program, program.body.entry, program.accept);
    let bytes = record_bytes(alloc, program, view, env)?;
    log.push(&ItemView {
        kind: ItemKind::Boot,
        a: u32::from(image.version.number()),
        b: 0,
        bytes: &bytes,
    })
}
