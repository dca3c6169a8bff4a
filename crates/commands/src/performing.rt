//! A command, and its work, which touches the shelf alone.
ghost use Rattle.std.specs.Prelude.{◌≡◌, ◌≤◌, IfOk, IfErr, IsErr, OnOk, length, map, string_bytes};
ghost use Rattle.std.specs.List.{AllByRecursion};
ghost use Rattle.edge_io.specs.Reads.{held};
ghost use Rattle.commands.specs.Command.{CommandValue, IsShort, names_of};
ghost use Rattle.commands.specs.Edges.{shelf_edge};
ghost use Rattle.commands.specs.Files.{IsServed, WereRead, got_contents};
ghost use Rattle.commands.specs.Work.{IsSettled, Performed, Stopped, StopsByWantAlone};

use crate::reading::{count_read, read_behind};
use crate::work::{Answer, Stop};
use aegis_limits::OutOfMemory;
use edge_io::Shelf;
use std::alloc::Global;

/// What words ask for. `perform` reads the files of a command and answers what is due for them.
pub trait Command {
    // The command, as the definitions have it.
    ghost value: { Self → CommandValue };

    /// The names of files that its words give, in the order in which they are read.
    fn names(&self, alloc: Global) -> Result<Vec<String>, OutOfMemory>
        ensures { IfOk result (λ names. map string_bytes names.items ≡ (value self.now).names) };

    /// The names that follow from what those files hold.
    fn further(&self, alloc: Global, contents: &[Vec<u8>]) -> Result<Vec<String>, OutOfMemory>
        requires count { length contents.now ≡ length (value self.now).names }
        requires short { AllByRecursion IsShort (held contents.now) }
        ensures { IfOk result (λ names. map string_bytes names.items ≡ (value self.now).further (held contents.now)) };

    /// What is due for what all of its files hold.
    fn answer(&self, alloc: Global, contents: &[Vec<u8>]) -> Result<Answer, OutOfMemory>
        requires count { length contents.now ≡ length (names_of (value self.now) (held contents.now)) }
        requires short { AllByRecursion IsShort (held contents.now) }
        ensures { IfOk result (IsSettled ((value self.now).due (held contents.now))) };
}

/// Reads the files of a command: those that its words name, and those that follow from what they hold.
fn read_all<C: Command, S: Shelf>(alloc: Global, command: &C, shelf: &mut S) -> Result<(), Stop>
    ensures ok { OnOk result (WereRead (names_of (C.value command.now)) (shelf_edge S.Shelf shelf.old shelf.new) (got_contents (shelf_edge S.Shelf shelf.old shelf.new))) }
    ensures short { OnOk result (AllByRecursion IsShort (got_contents (shelf_edge S.Shelf shelf.old shelf.new))) }
    ensures err { IfErr result (Stopped (names_of (C.value command.now)) (shelf_edge S.Shelf shelf.old shelf.new)) }
    ensures sure { IsServed (names_of (C.value command.now)) (shelf_edge S.Shelf shelf.old shelf.new) → StopsByWantAlone result }
    ensures refused { S.Refuses shelf.old → 1 ≤ length (C.value command.now).names → IsErr result }
{
    let start = count_read(shelf);
    let names = command.names(alloc)?;
    for name in &names {
        shelf.read(alloc, name.as_str())?;
    }
    let further = command.further(alloc, read_behind(shelf, start))?;
    for name in &further {
        shelf.read(alloc, name.as_str())?;
    }
    Ok(())
}

/// Reads the files of a command, and does its work.
pub fn perform<C: Command, S: Shelf>(
    alloc: Global,
    command: &C,
    shelf: &mut S,
) -> Result<Answer, Stop>
    ensures ok { IfOk result (Performed (C.value command.now) (shelf_edge S.Shelf shelf.old shelf.new)) }
    ensures err { IfErr result (Stopped (names_of (C.value command.now)) (shelf_edge S.Shelf shelf.old shelf.new)) }
    ensures sure { IsServed (names_of (C.value command.now)) (shelf_edge S.Shelf shelf.old shelf.new) → StopsByWantAlone result }
    ensures refused { S.Refuses shelf.old → 1 ≤ length (C.value command.now).names → IsErr result }
{
    let start = count_read(shelf);
    read_all(alloc, command, shelf)?;
    Ok(command.answer(alloc, read_behind(shelf, start))?)
}
