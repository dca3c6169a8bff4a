//! The command `asm SOURCE`.
ghost use Rattle.std.specs.Prelude.{◌<◌, ◌^◌, IfOk, length};
ghost use Rattle.mips_asm.specs.Assembled.{assembled};
ghost use Rattle.commands.specs.Asm.{asm, asm_due};
ghost use Rattle.commands.specs.Work.{Settles};

use crate::contents::content;
use crate::performing::Command;
use crate::status::Status;
use crate::work::Answer;
use aegis_limits::OutOfMemory;
use elf_static::write;
use line_text::Failure;
use mips_asm::assemble;
use std::alloc::Global;

/// `asm SOURCE`: the ELF file that a source assembles to.
#[derive(Clone, Copy)]
pub struct Asm<'a> {
    /// The name of the source.
    pub source: &'a str,
}

/// What is due for a source: its first fault, or the ELF file of what it assembles to.
fn due(alloc: Global, name: &str, source: &[u8]) -> Result<Answer, OutOfMemory>
    requires { length source.now < 2 ^ 27 }
    ensures { IfOk result (Settles (asm_due name.now (assembled source.now))) }
{
    match assemble(alloc, source) {
        Ok(object) => Ok(Answer {
            text: write(alloc, &object)?,
            status: Status::Done,
        }),
        Err(Failure::Fault(fault)) => Answer::refusal(alloc, name, fault.why.name(), fault.line),
        Err(Failure::OutOfMemory) => Err(OutOfMemory),
    }
}

impl Command for Asm<'_> {
    ghost value = { λ command. asm command.source.now };

    fn names(&self, alloc: Global) -> Result<Vec<String>, OutOfMemory> {
        Ok(vec![in alloc; String::from_str(alloc, self.source)?]?)
    }

    fn further(&self, alloc: Global, _contents: &[Vec<u8>]) -> Result<Vec<String>, OutOfMemory> {
        Ok(Vec::new(alloc))
    }

    fn answer(&self, alloc: Global, contents: &[Vec<u8>]) -> Result<Answer, OutOfMemory> {
        due(alloc, self.source, content(contents, 0))
    }
}
