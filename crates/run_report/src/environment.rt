//! What a report shows of an environment.
ghost use Rattle.std.specs.Prelude.{◌≡◌, ◌++◌, ◌∷◌, ◌<◌, codes, OnOk, IfOk};
ghost use Rattle.line_text.specs.Text.{dec_text};
ghost use Rattle.line_text.specs.WrittenLine.{line};
ghost use Rattle.run_report.specs.Report.{life_words, exception_text, env_line, out_line, excess_line, living_lines, if_live, env_text};

use crate::binding::push_bind_lines;
use crate::page::{push_keep_lines, push_page_lines};
use crate::processor::{push_cpu_line, push_regs_line, shown_cpu};
use crate::sending::push_sent_lines;
use crate::words::{env, number};
use aegis_limits::OutOfMemory;
use boot_image::name_text;
use line_text::{Word, push_line};
use mips_exec::ExcCode;
use std::alloc::Global;
use world_model::{Cause, Life, WorldView};

/// The lines that a report has of an environment, below `envs()` of the view
/// (`docs/REPORT.md`, "The report").
pub fn env_lines<V: WorldView>(alloc: Global, view: &V, env: u8) -> Result<Vec<u8>, OutOfMemory>
    requires { env < (V.world view.now).count }
    ensures { IfOk result (λ v. v.items ≡ env_text (V.world view.now) env) }
{
    let mut out = Vec::new(alloc);
    push_env(&mut out, view, env)?;
    Ok(out)
}

/// Appends the lines of an environment.
#[tactic(auto, unfolding(crate::specs::Report::env_text))]
pub(crate) fn push_env<V: WorldView>(
    out: &mut Vec<u8>,
    view: &V,
    env: u8,
) -> Result<(), OutOfMemory>
    requires { env < (V.world view.now).count }
    ensures { OnOk result (out.new.items ≡ out.old.items ++ env_text (V.world view.now) env) }
{
    push_env_line(out, view, env)?;
    push_out_line(out, view, env)?;
    push_if_live(out, view, env)?;
    push_sent_lines(out, view, env)
}

/// Appends the line of an environment's name and life.
#[tactic(auto, unfolding(crate::specs::Report::env_line))]
fn push_env_line<V: WorldView>(out: &mut Vec<u8>, view: &V, env: u8) -> Result<(), OutOfMemory>
    requires { env < (V.world view.now).count }
    ensures { OnOk result (out.new.items ≡ out.old.items ++ env_line env ((V.world view.now).solos env)) }
{
    push_life_line(out, env, name_text(&view.name(env)), view.life(env))
}

/// Appends the line of an environment of this name that lives or died so.
#[tactic(auto, unfolding(line_text::specs::WrittenLine::line_of))]
fn push_life_line(out: &mut Vec<u8>, who: u8, name: &[u8], life: Life) -> Result<(), OutOfMemory>
    ensures { OnOk result (out.new.items ≡ out.old.items ++ line (codes "env" ∷ dec_text who ∷ name.now ∷ life_words life)) }
{
    let (who, name) = (env(who), Word::Text(name));
    let Life::Dead(cause) = life else {
        return push_line(out, b"env", &[who, name, Word::Text(b"live")]);
    };
    let (how, why) = match cause {
        Cause::Exit(code) => (Word::Text(b"exit"), number(code)),
        Cause::Trapped(code) => (Word::Text(b"dead"), Word::Text(exception_text(code))),
        Cause::Excess => (Word::Text(b"dead"), Word::Text(b"excess")),
    };
    push_line(out, b"env", &[who, name, how, why])
}

/// The name of an exception.
fn exception_text(code: ExcCode) -> &'static [u8]
    ensures { result.now ≡ exception_text code }
{
    match code {
        ExcCode::Int => b"int",
        ExcCode::Mod => b"mod",
        ExcCode::Tlbl => b"tlbl",
        ExcCode::Tlbs => b"tlbs",
        ExcCode::Adel => b"adel",
        ExcCode::Ades => b"ades",
        ExcCode::Ibe => b"ibe",
        ExcCode::Dbe => b"dbe",
        ExcCode::Sys => b"sys",
        ExcCode::Bp => b"bp",
        ExcCode::Ri => b"ri",
        ExcCode::Cpu => b"cpu",
        ExcCode::Ov => b"ov",
    }
}

/// Appends the line of an environment's console.
#[tactic(auto, unfolding(crate::specs::Report::out_line, line_text::specs::WrittenLine::line_of))]
fn push_out_line<V: WorldView>(out: &mut Vec<u8>, view: &V, who: u8) -> Result<(), OutOfMemory>
    requires { who < (V.world view.now).count }
    ensures { OnOk result (out.new.items ≡ out.old.items ++ out_line who ((V.world view.now).solos who)) }
{
    let console = view.console(who);
    let length = Word::Number(console.len() as u64);
    push_line(out, b"out", &[env(who), length, Word::Quotation(console)])
}

/// Appends the line of an environment's excess.
#[tactic(auto, unfolding(crate::specs::Report::numbers_line, line_text::specs::WrittenLine::line_of))]
fn push_excess_line(out: &mut Vec<u8>, who: u8, excess: u32) -> Result<(), OutOfMemory>
    ensures { OnOk result (out.new.items ≡ out.old.items ++ excess_line who excess) }
{
    push_line(out, b"excess", &[env(who), number(excess)])
}

/// Appends what is shown of an environment only while it lives.
#[tactic(auto, unfolding(crate::specs::Report::living_lines))]
fn push_if_live<V: WorldView>(out: &mut Vec<u8>, view: &V, env: u8) -> Result<(), OutOfMemory>
    requires { env < (V.world view.now).count }
    ensures { OnOk result (out.new.items ≡ out.old.items ++ if_live ((V.world view.now).solos env).life (living_lines (V.world view.now) env)) }
{
    if let Life::Dead(_) = view.life(env) {
        return Ok(());
    }
    let cpu = shown_cpu(view, env);
    push_cpu_line(out, env, &cpu)?;
    push_regs_line(out, env, &cpu)?;
    push_excess_line(out, env, view.excess(env))?;
    push_keep_lines(out, view, env)?;
    push_page_lines(out, view, env)?;
    push_bind_lines(out, view, env)
}
