//! The command `list ELF`.
ghost use Rattle.std.specs.Prelude.{◌<◌, ◌^◌, IfOk, length};
ghost use Rattle.elf_static.specs.ElfFaults.{elf_fault};
ghost use Rattle.commands.specs.ListElf.{list_due, list_elf};
ghost use Rattle.commands.specs.Work.{Settles};

use crate::contents::content;
use crate::performing::Command;
use crate::status::Status;
use crate::work::Answer;
use aegis_limits::OutOfMemory;
use elf_static::read;
use mips_list::list;
use std::alloc::Global;

/// `list ELF`: the listing of an ELF file.
#[derive(Clone, Copy)]
pub struct ListElf<'a> {
    /// The name of the ELF file.
    pub elf: &'a str,
}

/// What is due for an ELF file: its first fault, or its listing.
fn due(alloc: Global, name: &str, file: &[u8]) -> Result<Answer, OutOfMemory>
    requires { length file.now < 2 ^ 27 }
    ensures { IfOk result (Settles (list_due name.now file.now (elf_fault file.now))) }
{
    match read(file) {
        Ok(elf) => Ok(Answer {
            text: list(alloc, &elf)?,
            status: Status::Done,
        }),
        Err(fault) => Answer::refusal(alloc, name, fault.why.name(), fault.place),
    }
}

impl Command for ListElf<'_> {
    ghost value = { λ command. list_elf command.elf.now };

    fn names(&self, alloc: Global) -> Result<Vec<String>, OutOfMemory> {
        Ok(vec![in alloc; String::from_str(alloc, self.elf)?]?)
    }

    fn further(&self, alloc: Global, _contents: &[Vec<u8>]) -> Result<Vec<String>, OutOfMemory> {
        Ok(Vec::new(alloc))
    }

    fn answer(&self, alloc: Global, contents: &[Vec<u8>]) -> Result<Answer, OutOfMemory> {
        due(alloc, self.elf, content(contents, 0))
    }
}
