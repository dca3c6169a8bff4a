//! The command `load SEED`.
ghost use Rattle.std.specs.Prelude.{◌≡◌, ◌<◌, ◌^◌, ◌++◌, [], ◌∷◌, None, IfOk, OnOk, codes, length, map, option_map, string_bytes, true};
ghost use Rattle.boot_image.specs.ImageFaults.{image_fault};
ghost use Rattle.boot_image.specs.ImageValue.{image_of};
ghost use Rattle.external_event.specs.Order.{are_in_order};
ghost use Rattle.line_text.specs.Text.{dec_text};
ghost use Rattle.line_text.specs.WrittenLine.{line};
ghost use Rattle.aegis_command.specs.LoadSeed.{load_seed, load_summary, load_ticks, load_words, summary_after};

use crate::ended_run::ended_run;
use crate::ranged::Ticks;
use aegis_limits::OutOfMemory;
use boot_image::{Image, read_image};
use commands::{Answer, Command, Status};
use exos_text::{load_image, load_schedule};
use external_event::Event;
use line_text::{Failure, Word, decimal, push_line};
use run_report::push_summary;
use std::alloc::Global;

/// How many ticks are run.
const TICKS: u32 = 1_000_000;

/// `load SEED`: a run in short, of the image and the schedule that a number gives.
#[derive(Clone, Copy)]
pub struct LoadSeed {
    /// The number.
    pub seed: u32,
}

impl LoadSeed {
    /// The load that the words behind `load` ask for, if they are one's.
    pub fn parse(words: &[String]) -> Option<LoadSeed>
        ensures { option_map (λ c. load_seed c.seed) result ≡ load_words (map string_bytes words.now) }
    {
        let [seed] = words else {
            return None;
        };
        let seed = decimal(seed.as_str().as_bytes())?;
        Some(LoadSeed { seed })
    }
}

/// The ticks of a load.
#[tactic(auto, unfolding(crate::specs::LoadSeed::load_ticks))]
fn load_ticks() -> Ticks
    ensures { result.number ≡ load_ticks }
{
    Ticks { number: TICKS }
}

/// The image of a file that has no fault.
fn sound_image(alloc: Global, file: &[u8]) -> Result<Image<'_>, OutOfMemory>
    requires short { length file.now < 2 ^ 27 }
    requires sound { image_fault file.now ≡ None }
    ensures { IfOk result (λ image. image ≡ image_of file.now) }
{
    match read_image(alloc, file) {
        Ok(image) => Ok(image),
        Err(Failure::Fault(_)) => unreachable!(),
        Err(Failure::OutOfMemory) => Err(OutOfMemory),
    }
}

/// Appends a run of so many ticks in short, in which these events happen.
#[tactic(auto, unfolding(crate::specs::LoadSeed::summary_after))]
fn push_run(
    alloc: Global,
    out: &mut Vec<u8>,
    image: &Image<'_>,
    events: &[Event],
    ticks: Ticks,
) -> Result<(), OutOfMemory>
    requires { are_in_order 0 events.now ≡ true }
    ensures { OnOk result (out.new.items ≡ out.old.items ++ summary_after image.now events.now ticks.number) }
{
    let run = ended_run(alloc, image, events, ticks)?;
    push_summary(alloc, out, &run.board, run.end)
}

/// The line that names the seed.
#[tactic(auto, unfolding(line_text::specs::WrittenLine::line_of))]
fn seed_line(alloc: Global, seed: u32) -> Result<Vec<u8>, OutOfMemory>
    ensures { IfOk result (λ text. text.items ≡ line (codes "load" ∷ dec_text seed ∷ [])) }
{
    let mut text = Vec::new(alloc);
    push_line(&mut text, b"load", &[Word::Number(u64::from(seed))])?;
    Ok(text)
}

/// What is due for a seed.
#[tactic(auto, unfolding(crate::specs::LoadSeed::load_summary))]
fn summary(alloc: Global, seed: u32) -> Result<Vec<u8>, OutOfMemory>
    ensures { IfOk result (λ text. text.items ≡ load_summary seed) }
{
    let file = load_image(alloc, seed)?;
    let image = sound_image(alloc, &file)?;
    let events = load_schedule(alloc, seed)?;
    let mut text = seed_line(alloc, seed)?;
    push_run(alloc, &mut text, &image, &events, load_ticks())?;
    Ok(text)
}

impl Command for LoadSeed {
    ghost value = { λ command. load_seed command.seed };

    fn names(&self, alloc: Global) -> Result<Vec<String>, OutOfMemory> {
        Ok(Vec::new(alloc))
    }

    fn further(&self, alloc: Global, _contents: &[Vec<u8>]) -> Result<Vec<String>, OutOfMemory> {
        Ok(Vec::new(alloc))
    }

    fn answer(&self, alloc: Global, _contents: &[Vec<u8>]) -> Result<Answer, OutOfMemory> {
        Ok(Answer {
            text: summary(alloc, self.seed)?,
            status: Status::Done,
        })
    }
}
