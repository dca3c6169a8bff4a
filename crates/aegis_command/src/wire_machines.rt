//! The command `wire DELAY TICKS (IMAGE SCHEDULE)..`.
ghost use Rattle.std.specs.Prelude.{◌≡◌, ◌≤◌, ◌<◌, ◌+◌, ◌*◌, ◌%◌, ◌^◌, ◌++◌, [], IfOk, OnOk, get_or, length, map, option_map, string_bytes, true};
ghost use Rattle.std.specs.List.{AllByRecursion};
ghost use Rattle.board_model.specs.Showing.{world_of};
ghost use Rattle.edge_io.specs.Reads.{held};
ghost use Rattle.commands.specs.Command.{IsShort};
ghost use Rattle.aegis_command.specs.SystemFiles.{names_seen};
ghost use Rattle.aegis_command.specs.Pairs.{ArePairs, AreReports, IsPair, IsPairAt};
ghost use Rattle.aegis_command.specs.WireMachines.{are_pairs, machine_report, wire_words};

use crate::ranged::{Delay, WireTicks};
use crate::system_files::{SystemFiles, SystemNames};
use aegis_calls::Board;
use aegis_limits::OutOfMemory;
use aegis_tick::{boot, end_of_run};
use commands::{Answer, Command, Status, content};
use external_event::Event;
use line_text::{Word, push_line};
use run_report::report;
use std::alloc::Global;
use wire_model::MOST_MACHINES;
use wire_net::wire;
use world_model::WorldView;

/// `wire DELAY TICKS (IMAGE SCHEDULE)..`: the reports of machines on a wire, each with its schedule.
#[derive(Clone, Copy)]
pub struct WireMachines<'a> {
    /// The ticks that the wire takes to carry a packet.
    pub delay: Delay,
    /// How many ticks to run.
    pub ticks: WireTicks,
    /// The names of the files: of each machine's image, and then of its schedule.
    pub files: &'a [String],
    ghost pairs: { are_pairs (map string_bytes files.now) ≡ true },
}

impl<'a> WireMachines<'a> {
    ghost use Rattle.aegis_command.specs.WireCommand.{wire_seen};

    /// The run on a wire that the words behind `wire` ask for, if they are one's.
    pub fn parse(words: &'a [String]) -> Option<WireMachines<'a>>
        ensures { option_map wire_seen result ≡ wire_words (map string_bytes words.now) }
    {
        let [delay, ticks, files @ ..] = words else {
            return None;
        };
        if files.len() % 2 != 0 || files.len() < 2 || files.len() > 2 * MOST_MACHINES {
            return None;
        }
        let delay = Delay::parse(delay.as_str())?;
        let ticks = WireTicks::parse(ticks.as_str())?;
        Some(WireMachines {
            delay,
            ticks,
            files,
        })
    }
}

/// Machines that are booted, and their schedules.
#[derive(Drop)]
struct Machines {
    boards: Vec<Board>,
    schedules: Vec<Vec<Event>>,
}

/// What an image and a schedule are: a machine that is booted, or the refusal of the first that has a fault.
#[derive(Drop)]
enum Pair {
    Refused(Answer),
    Sound(Board, Vec<Event>),
}

/// What all pairs are.
#[derive(Drop)]
enum Pairs {
    Refused(Answer),
    Sound(Machines),
}

/// The machine of an image and a schedule of these names, if neither has a fault.
fn pair_of(
    alloc: Global,
    names: SystemNames<'_>,
    image: &[u8],
    schedule: &[u8],
) -> Result<Pair, OutOfMemory>
    requires image { length image.now < 2 ^ 27 }
    requires schedule { length schedule.now < 2 ^ 27 }
    ensures { IfOk result (IsPair (names_seen names.entry) image.now schedule.now) }
{
    match names.read(alloc, image, schedule)? {
        SystemFiles::Refused(answer) => Ok(Pair::Refused(answer)),
        SystemFiles::Sound(image, events) => Ok(Pair::Sound(boot(alloc, &image)?, events)),
    }
}

/// The name at a place.
fn name_at(names: &[String], place: usize) -> &str
    requires { place < length names.now }
    ensures { result.now ≡ get_or (map string_bytes names.now) place [] }
{
    names[place].as_str()
}

/// The machine of the pair of this number.
fn pair_at(
    alloc: Global,
    names: &[String],
    contents: &[Vec<u8>],
    pair: usize,
) -> Result<Pair, OutOfMemory>
    requires count { length contents.now ≡ length names.now }
    requires within { 2 * pair + 1 < length names.now }
    requires short { AllByRecursion IsShort (held contents.now) }
    ensures { IfOk result (IsPairAt (map string_bytes names.now) (held contents.now) pair) }
{
    let first = 2 * pair;
    let names = SystemNames {
        image: name_at(names, first),
        schedule: name_at(names, first + 1),
    };
    pair_of(
        alloc,
        names,
        content(contents, first),
        content(contents, first + 1),
    )
}

/// The machines of these files, by pairs of an image and a schedule, if no file has a fault.
fn pairs_of(alloc: Global, names: &[String], contents: &[Vec<u8>]) -> Result<Pairs, OutOfMemory>
    requires count { length contents.now ≡ length names.now }
    requires pairs { length names.now % 2 ≡ 0 }
    requires short { AllByRecursion IsShort (held contents.now) }
    ensures { IfOk result (ArePairs (map string_bytes names.now) (held contents.now)) }
{
    let mut boards = Vec::new(alloc);
    let mut schedules = Vec::new(alloc);
    for pair in 0..names.len() / 2 {
        match pair_at(alloc, names, contents, pair)? {
            Pair::Refused(answer) => return Ok(Pairs::Refused(answer)),
            Pair::Sound(board, events) => {
                boards.push(board)?;
                schedules.push(events)?;
            }
        }
    }
    Ok(Pairs::Sound(Machines { boards, schedules }))
}

/// Appends the number of a machine, and its report after so many ticks.
#[tactic(auto, unfolding(line_text::specs::WrittenLine::line_of))]
fn push_machine(
    alloc: Global,
    out: &mut Vec<u8>,
    machine: usize,
    board: &Board,
    ticks: u32,
) -> Result<(), OutOfMemory>
    ensures { OnOk result (out.new.items ≡ out.old.items ++ machine_report machine (world_of board.now) ticks) }
{
    push_line(out, b"machine", &[Word::Number(machine as u64)])?;
    let text = report(alloc, board, end_of_run(board, ticks))?;
    out.extend_from_slice(&text)?;
    Ok(())
}

/// The reports of machines after so many ticks on a wire.
#[tactic(auto, unfolding(line_text::specs::WrittenLine::line_of))]
fn reports(alloc: Global, boards: &[Board], ticks: u32) -> Result<Vec<u8>, OutOfMemory>
    ensures { IfOk result (λ text. AreReports boards.now ticks text.items) }
{
    let mut text = Vec::new(alloc);
    push_line(
        &mut text,
        b"aegis",
        &[Word::Text(b"wire"), Word::Number(boards.len() as u64)],
    )?;
    for machine in 0..boards.len() {
        push_machine(alloc, &mut text, machine, &boards[machine], ticks)?;
    }
    push_line(&mut text, b"done", &[])?;
    Ok(text)
}

impl Command for WireMachines<'_> {
    ghost use Rattle.aegis_command.specs.WireCommand.{wire_seen};

    ghost value = { wire_seen };

    fn names(&self, alloc: Global) -> Result<Vec<String>, OutOfMemory> {
        let mut names = Vec::new(alloc);
        for file in self.files {
            names.push(String::from_str(alloc, file.as_str())?)?;
        }
        Ok(names)
    }

    fn further(&self, alloc: Global, _contents: &[Vec<u8>]) -> Result<Vec<String>, OutOfMemory> {
        Ok(Vec::new(alloc))
    }

    fn answer(&self, alloc: Global, contents: &[Vec<u8>]) -> Result<Answer, OutOfMemory> {
        match pairs_of(alloc, self.files, contents)? {
            Pairs::Refused(answer) => Ok(answer),
            Pairs::Sound(machines) => {
                let Machines {
                    mut boards,
                    schedules,
                } = machines;
                wire(
                    alloc,
                    &mut boards,
                    &schedules,
                    self.delay.number,
                    self.ticks.number,
                )?;
                Ok(Answer {
                    text: reports(alloc, &boards, self.ticks.number)?,
                    status: Status::Done,
                })
            }
        }
    }
}
