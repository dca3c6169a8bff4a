//! The last lines of a report but one: how often each environment had a turn, forfeited one, or ran a
//! quantum of excess.
ghost use Rattle.std.specs.Prelude.{◌≡◌, ◌++◌, OnOk};
ghost use Rattle.machine_text.specs.Series.{for_each};
ghost use Rattle.run_report.specs.Report.{sum_line};
ghost use Rattle.run_report.specs.Sums.{AreSums, byte_values};

use crate::words::env;
use aegis_limits::OutOfMemory;
use kernel_journal::Row;
use line_text::{Word, push_line};
use world_model::WorldView;

/// How many values a byte has, as which rows name environments.
const BYTE_VALUES: usize = 256;

/// How often each environment, by its number, had a turn, forfeited one, or ran a quantum of excess.
#[derive(Drop)]
struct Sums {
    runs: [usize; BYTE_VALUES],
    pays: [usize; BYTE_VALUES],
    overs: [usize; BYTE_VALUES],
}

impl Sums {
    ghost use Rattle.run_report.specs.SumsLine.{line_of_sums};

    /// The sums of all environments, by one pass over the rows.
    fn of(rows: &[Row]) -> Sums
        ensures { AreSums rows.now result }
    {
        let mut sums = Sums {
            runs: [0; BYTE_VALUES],
            pays: [0; BYTE_VALUES],
            overs: [0; BYTE_VALUES],
        };
        for row in rows {
            match *row {
                Row::Run { env, .. } => sums.runs[usize::from(env)] += 1,
                Row::Pay { env, .. } => sums.pays[usize::from(env)] += 1,
                Row::Over { env, .. } => sums.overs[usize::from(env)] += 1,
                _ => {}
            }
        }
        sums
    }

    /// Appends the line of an environment's sums.
    #[tactic(auto, unfolding(crate::specs::Report::numbers_line, line_text::specs::WrittenLine::line_of))]
    fn push_line(&self, out: &mut Vec<u8>, who: u8) -> Result<(), OutOfMemory>
        ensures { OnOk result (out.new.items ≡ out.old.items ++ line_of_sums self.now who) }
    {
        let place = usize::from(who);
        let runs = Word::Number(self.runs[place] as u64);
        let pays = Word::Number(self.pays[place] as u64);
        let overs = Word::Number(self.overs[place] as u64);
        push_line(out, b"sum", &[env(who), runs, pays, overs])
    }
}

/// Appends the sums of each environment.
#[tactic(auto, using(std::proofs::lemmas::Grind::common_steps, machine_text::proofs::Series::for_each_more))]
pub(crate) fn push_sums<V: WorldView>(out: &mut Vec<u8>, view: &V) -> Result<(), OutOfMemory>
    ensures { OnOk result (out.new.items ≡ out.old.items ++ for_each (sum_line (V.world view.now).rows) (V.world view.now).count) }
{
    let sums = Sums::of(view.journal());
    for env in 0..view.envs() {
        sums.push_line(out, env)?;
    }
    Ok(())
}
