//! The program: `main` calls `program_over` once, with the process's words, the host's files and its standard output.
#![tactic(auto)]

use aegis_command::Status;
use aegis_limits::OutOfMemory;
use aegis_program::program_over;
use std::io::ErrorKind;
use std::process::ExitCode;
use std::rt::Env;
use std::{env, io};

/// The words after the program's name; none where one of them isn't text.
fn arguments(rt: &(impl Env + AllocGlobal)) -> Result<Vec<String>, OutOfMemory> {
    match env::args(rt) {
        Ok(args) => Ok(args.skip(1).collect(rt.alloc())?),
        Err(e) if e.kind() == ErrorKind::OutOfMemory => Err(OutOfMemory),
        Err(_) => Ok(Vec::new(rt.alloc())),
    }
}

fn main(rt: HostRuntime) -> ExitCode {
    let Ok(words) = arguments(&rt) else {
        return ExitCode::from(Status::OutOfMemory.code());
    };
    let ended = program_over(rt.alloc(), &words, &rt, io::writer(&rt));
    ExitCode::from(ended.status.code())
}
