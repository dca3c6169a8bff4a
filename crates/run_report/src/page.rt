//! The pages that a report shows, each by the fingerprint of its bytes.
ghost use Rattle.std.specs.Prelude.{◌≡◌, ◌++◌, ◌<◌, OnOk};
ghost use Rattle.world_model.specs.View.{view_seen};
ghost use Rattle.run_report.specs.Report.{keep_line, keep_lines, owned_lines, page_line};

use crate::words::{env, number};
use aegis_limits::OutOfMemory;
use line_text::{Word, push_line};
use machine_text::fingerprint;
use world_model::{PageView, WorldView};

/// Appends the line of a page.
#[tactic(auto, unfolding(crate::specs::Report::keep_line, line_text::specs::WrittenLine::line_of))]
fn push_keep_line(out: &mut Vec<u8>, who: u8, page: PageView<'_>) -> Result<(), OutOfMemory>
    ensures { OnOk result (out.new.items ≡ out.old.items ++ keep_line who (view_seen page.entry)) }
{
    let fingerprint = fingerprint(page.bytes);
    let vpn = Word::PageNumber(page.vpn);
    push_line(out, b"keep", &[env(who), vpn, Word::Text(&fingerprint)])
}

/// Appends the lines of an environment's pages.
pub(crate) fn push_keep_lines<V: WorldView>(
    out: &mut Vec<u8>,
    view: &V,
    env: u8,
) -> Result<(), OutOfMemory>
    requires { env < (V.world view.now).count }
    ensures { OnOk result (out.new.items ≡ out.old.items ++ keep_lines env ((V.world view.now).solos env).kept) }
{
    for place in 0..view.kept_count(env) {
        if let Some(page) = view.kept_page(env, place) {
            push_keep_line(out, env, page)?;
        }
    }
    Ok(())
}

/// Appends the line of a page that an environment owns.
#[tactic(auto, unfolding(crate::specs::Report::page_line, line_text::specs::WrittenLine::line_of))]
fn push_page_line(out: &mut Vec<u8>, who: u8, page: u32, bytes: &[u8]) -> Result<(), OutOfMemory>
    ensures { OnOk result (out.new.items ≡ out.old.items ++ page_line who page bytes.now) }
{
    let fingerprint = fingerprint(bytes);
    let page = number(page);
    push_line(out, b"page", &[env(who), page, Word::Text(&fingerprint)])
}

/// Appends the lines of the pages that an environment owns, by rising number.
#[tactic(auto, using(std::proofs::lemmas::Grind::common_steps, machine_text::proofs::Series::for_each_more))]
pub(crate) fn push_page_lines<V: WorldView>(
    out: &mut Vec<u8>,
    view: &V,
    env: u8,
) -> Result<(), OutOfMemory>
    requires { env < (V.world view.now).count }
    ensures { OnOk result (out.new.items ≡ out.old.items ++ owned_lines (V.world view.now) env) }
{
    for page in 0..view.page_count() {
        if let Some(bytes) = view.owned_page(env, page) {
            push_page_line(out, env, page, bytes)?;
        }
    }
    Ok(())
}
