//! The words of the command line, and the work that they ask for.
ghost use Rattle.std.specs.Prelude.{◌≡◌, ◌≤◌, IfOk, IfErr, IsErr, length, option_map, map, string_bytes};
ghost use Rattle.std.specs.Option.{option_copied};
ghost use Rattle.commands.specs.Command.{names_of, only_name};
ghost use Rattle.commands.specs.Edges.{shelf_edge};
ghost use Rattle.commands.specs.Files.{IsServed};
ghost use Rattle.commands.specs.Work.{Performed, Stopped, StopsByWantAlone};
ghost use Rattle.aegis_command.specs.Words.{asked_by, command_seen};

use crate::audit_ledger::AuditLedger;
use crate::core_env::CoreEnv;
use crate::load_seed::LoadSeed;
use crate::long_run::LongReport;
use crate::run_bare::RunBare;
use crate::run_image::Report;
use crate::system_command::SystemCommand;
use crate::tlb_image::ReportAndTlb;
use crate::trace_env::Trace;
use crate::twin_systems::TwinSystems;
use crate::wire_machines::WireMachines;
use commands::{Answer, Asm, ListElf, MakeImage, Stop, perform};
use edge_io::Shelf;
use std::alloc::Global;

/// What the words ask for.
#[derive(Clone, Copy)]
pub enum Words<'a> {
    /// `run IMAGE SCHEDULE TICKS`.
    RunImage(SystemCommand<'a, Report>),
    /// `asm SOURCE`.
    Asm(Asm<'a>),
    /// `list ELF`.
    ListElf(ListElf<'a>),
    /// `image MANIFEST`.
    MakeImage(MakeImage<'a>),
    /// `load SEED`.
    LoadSeed(LoadSeed),
    /// `audit REPORT QUANTUM`, and a plan or none, and `strict` or not.
    AuditLedger(AuditLedger<'a>),
    /// `trace IMAGE SCHEDULE TICKS ENV`, and `FROM` or none.
    TraceEnv(SystemCommand<'a, Trace>),
    /// `bare FILE TICKS PERIOD`.
    RunBare(RunBare<'a>),
    /// `wire DELAY TICKS (IMAGE SCHEDULE)..`.
    WireMachines(WireMachines<'a>),
    /// `tlb IMAGE SCHEDULE TICKS`.
    TlbImage(SystemCommand<'a, ReportAndTlb>),
    /// `twin IMAGE SCHEDULE IMAGE SCHEDULE ENV N`.
    TwinSystems(TwinSystems<'a>),
    /// `long IMAGE SCHEDULE TICKS`.
    LongRun(SystemCommand<'a, LongReport>),
    /// `core IMAGE SCHEDULE TICKS ENV`.
    CoreEnv(CoreEnv<'a>),
}

/// The one word that there is.
fn only_name(words: &[String]) -> Option<&str>
    ensures { option_copied result ≡ only_name (map string_bytes words.now) }
{
    let [name] = words else {
        return None;
    };
    Some(name.as_str())
}

/// What the words ask for, if they are a command's: its own word first.
pub fn parse(words: &[String]) -> Option<Words<'_>>
    ensures { option_map command_seen result ≡ asked_by words.now }
{
    let [word, rest @ ..] = words else {
        return None;
    };
    let word = word.as_str();
    if word == "run" {
        return Some(Words::RunImage(SystemCommand::parse(rest)?));
    }
    if word == "asm" {
        let source = only_name(rest)?;
        return Some(Words::Asm(Asm { source }));
    }
    if word == "list" {
        let elf = only_name(rest)?;
        return Some(Words::ListElf(ListElf { elf }));
    }
    if word == "image" {
        let manifest = only_name(rest)?;
        return Some(Words::MakeImage(MakeImage { manifest }));
    }
    if word == "load" {
        return Some(Words::LoadSeed(LoadSeed::parse(rest)?));
    }
    if word == "audit" {
        return Some(Words::AuditLedger(AuditLedger::parse(rest)?));
    }
    if word == "trace" {
        return Some(Words::TraceEnv(SystemCommand::parse(rest)?));
    }
    if word == "bare" {
        return Some(Words::RunBare(RunBare::parse(rest)?));
    }
    if word == "wire" {
        return Some(Words::WireMachines(WireMachines::parse(rest)?));
    }
    if word == "tlb" {
        return Some(Words::TlbImage(SystemCommand::parse(rest)?));
    }
    if word == "twin" {
        return Some(Words::TwinSystems(TwinSystems::parse(rest)?));
    }
    if word == "long" {
        return Some(Words::LongRun(SystemCommand::parse(rest)?));
    }
    if word == "core" {
        return Some(Words::CoreEnv(CoreEnv::parse(rest)?));
    }
    None
}

/// Does the work of the words.
pub fn perform_words<S: Shelf>(
    alloc: Global,
    words: Words<'_>,
    shelf: &mut S,
) -> Result<Answer, Stop>
    ensures ok { IfOk result (Performed (command_seen words.entry) (shelf_edge S.Shelf shelf.old shelf.new)) }
    ensures err { IfErr result (Stopped (names_of (command_seen words.entry)) (shelf_edge S.Shelf shelf.old shelf.new)) }
    ensures sure { IsServed (names_of (command_seen words.entry)) (shelf_edge S.Shelf shelf.old shelf.new) → StopsByWantAlone result }
    ensures refused { S.Refuses shelf.old → 1 ≤ length (command_seen words.entry).names → IsErr result }
{
    match words {
        Words::RunImage(command) => perform(alloc, &command, shelf),
        Words::Asm(command) => perform(alloc, &command, shelf),
        Words::ListElf(command) => perform(alloc, &command, shelf),
        Words::MakeImage(command) => perform(alloc, &command, shelf),
        Words::LoadSeed(command) => perform(alloc, &command, shelf),
        Words::AuditLedger(command) => perform(alloc, &command, shelf),
        Words::TraceEnv(command) => perform(alloc, &command, shelf),
        Words::RunBare(command) => perform(alloc, &command, shelf),
        Words::WireMachines(command) => perform(alloc, &command, shelf),
        Words::TlbImage(command) => perform(alloc, &command, shelf),
        Words::TwinSystems(command) => perform(alloc, &command, shelf),
        Words::LongRun(command) => perform(alloc, &command, shelf),
        Words::CoreEnv(command) => perform(alloc, &command, shelf),
    }
}
