//! Calls with ample memory, and calls of each command of which one read or one write is refused.
use super::*;
use aegis_tick::boot;
use asm_parse::parse;
use boot_image::read_image;
use run_report::env_lines;
use std::alloc::{AllocError, Global};
use std::test::Fail;
use world_model::WorldView;

mod program;

/// A program that exits with 7 in its third tick.
const SOURCE: &[u8] = b"ori $4, $0, 7\nori $2, $0, 2\nsyscall\n";

/// Its listing.
const LISTING: &[u8] = b"\
00400000 34040007 ori $4,$0,0x0007
00400004 34020002 ori $2,$0,0x0002
00400008 0000000c syscall
";

/// An image of two environments that run it.
const MANIFEST: &[u8] = b"\
pages 16
quantum 16
slots 0 1
env one elf 0 0 exit.elf
env two elf 0 0 exit.elf
";

/// What their run writes, by hand: 196 bytes.
const REPORT: &[u8] = b"\
aegis run
end idle 6
env 0 one exit 7
out 0 0 \"\"
env 1 two exit 7
out 1 0 \"\"
own 0 0 0 0
own 0 1 1 1
run 0 0 0
dead 2 0 0
own 2 0 - -
run 3 1 1
dead 5 1 1
own 5 1 - -
sum 0 1 0 0
sum 1 1 0 0
done
";

/// A program of the bare board that does nothing: what stands behind its byte is zero too.
const NOPS: &[u8] = b"\0";

/// A plan of a scheduler that gives no slice away.
const PLAN: &[u8] = b"from 31\nclient 0 1\nclient 1 1\n";

/// More bytes than any output here has.
const ROOM: usize = 4096;

/// The number of no read or write here.
const NONE: u64 = u64::MAX;

/// A call, and what its edges refuse.
#[derive(Clone, Copy)]
struct Call<'a> {
    words: &'a [&'a str],
    /// The number of the read that is refused, counted from 0.
    read: u64,
    /// The number of the write that is refused, counted from 0.
    write: u64,
    /// How many bytes there is room for.
    room: usize,
    /// How many bytes one write takes.
    most: usize,
}

/// The words of a run.
const RUN_WORDS: &[&str] = &["run", "two.img", "none.sch", "100"];

/// The words of an image that is made.
const IMAGE_WORDS: &[&str] = &["image", "two.txt"];

/// A run that nothing is refused.
const RUN: Call<'_> = Call {
    words: RUN_WORDS,
    read: NONE,
    write: NONE,
    room: ROOM,
    most: ROOM,
};

/// A command over files that are there.
#[derive(Clone, Copy)]
struct Command<'a> {
    words: &'a [&'a str],
    /// The names that it reads, in turn.
    reads: &'a [&'a str],
    /// Three sizes of piece in which its output is taken.
    pieces: [usize; 3],
}

/// Each command; those whose output or whose work is long have it taken in larger pieces.
const COMMANDS: [Command<'_>; 11] = [
    Command {
        words: RUN_WORDS,
        reads: &["two.img", "none.sch"],
        pieces: [1, 3, 64],
    },
    Command {
        words: &["tlb", "two.img", "none.sch", "100"],
        reads: &["two.img", "none.sch"],
        pieces: [16, 64, 1000],
    },
    Command {
        words: &["trace", "two.img", "none.sch", "100", "1"],
        reads: &["two.img", "none.sch"],
        pieces: [1, 3, 64],
    },
    Command {
        words: &["asm", "exit.s"],
        reads: &["exit.s"],
        pieces: [1, 3, 64],
    },
    Command {
        words: &["list", "exit.elf"],
        reads: &["exit.elf"],
        pieces: [1, 3, 64],
    },
    Command {
        words: IMAGE_WORDS,
        reads: &["two.txt", "exit.elf", "exit.elf"],
        pieces: [1, 3, 64],
    },
    Command {
        words: &["bare", "nops.bin", "10", "0"],
        reads: &["nops.bin"],
        pieces: [64, 256, 1000],
    },
    Command {
        words: &["audit", "two.report", "16"],
        reads: &["two.report"],
        pieces: [1, 3, 64],
    },
    Command {
        words: &["audit", "two.report", "16", "two.plan"],
        reads: &["two.report", "two.plan"],
        pieces: [1, 3, 64],
    },
    Command {
        words: &[
            "wire", "1", "20", "two.img", "none.sch", "two.img", "none.sch",
        ],
        reads: &["two.img", "none.sch", "two.img", "none.sch"],
        pieces: [1, 3, 64],
    },
    Command {
        words: &["load", "1"],
        reads: &[],
        pieces: [300, 1000, ROOM],
    },
];

/// How a call ended.
#[derive(Drop)]
struct End {
    status: Status,
    written: Vec<u8>,
    /// How many reads there were.
    reads: u64,
    /// The name of the read that failed, or no bytes.
    failed: String,
}

/// The words of a command line.
fn strings(alloc: Global, words: &[&str]) -> Result<Vec<String>, AllocError> {
    let mut strings = Vec::new(alloc);
    for word in words {
        strings.push(String::from_str(alloc, word)?)?;
    }
    Ok(strings)
}

/// Files of these names with these bytes.
fn files(alloc: Global, files: &[(&str, &[u8])]) -> Result<Vec<(String, Vec<u8>)>, AllocError> {
    let mut owned = Vec::new(alloc);
    for (name, bytes) in files {
        owned.push((
            String::from_str(alloc, name)?,
            Vec::from_slice(alloc, bytes)?,
        ))?;
    }
    Ok(owned)
}

/// What a call writes that ends as done.
fn done(alloc: Global, words: &[&str], named: &[(&str, &[u8])]) -> Result<Vec<u8>, Fail> {
    let words = strings(alloc, words)?;
    let files = files(alloc, named)?;
    let output = call(alloc, &words, files, ROOM)
        .ok()
        .ok_or("a call wants memory")?;
    match output.status {
        Status::Done => Ok(output.bytes),
        status => Err(Fail::new(status.code())),
    }
}

/// The program, and the image of two environments that run it.
fn program_and_image(alloc: Global) -> Result<(Vec<u8>, Vec<u8>), Fail> {
    let program = done(alloc, &["asm", "exit.s"], &[("exit.s", SOURCE)])?;
    let image = done(
        alloc,
        IMAGE_WORDS,
        &[("two.txt", MANIFEST), ("exit.elf", &program)],
    )?;
    Ok((program, image))
}

/// The files that the commands name.
fn named_files<'a>(program: &'a [u8], image: &'a [u8]) -> [(&'a str, &'a [u8]); 8] {
    [
        ("exit.s", SOURCE),
        ("exit.elf", program),
        ("two.txt", MANIFEST),
        ("two.img", image),
        ("none.sch", b""),
        ("nops.bin", NOPS),
        ("two.report", REPORT),
        ("two.plan", PLAN),
    ]
}

/// How a call over these files ends.
fn ended(alloc: Global, call: &Call<'_>, named: &[(&str, &[u8])]) -> Result<End, Fail> {
    let words = strings(alloc, call.words)?;
    let fails = vec![in alloc; call.read]?;
    let mut shelf = MemoryShelf::new(alloc, files(alloc, named)?, fails);
    let fails = vec![in alloc; call.write]?;
    let mut out = MemorySink::new(alloc, call.room, call.most.max(1), fails)
        .ok()
        .ok_or("a sink wants memory")?;
    let status = run_in_memory(alloc, &words, &mut shelf, &mut out);
    let readings = shelf.kept;
    Ok(End {
        status,
        written: out.bytes,
        reads: readings.calls,
        failed: readings.failed.unwrap_or(String::new(alloc)),
    })
}

#[test]
fn ample_memory_is_enough(rt: HostRuntime) -> Result<(), Fail> {
    let alloc = rt.alloc();
    let (program, image) = program_and_image(alloc)?;
    let listing = done(alloc, &["list", "exit.elf"], &[("exit.elf", &program)])?;
    assert_eq!(rt; listing.as_slice(), LISTING);
    let report = done(alloc, RUN_WORDS, &[("two.img", &image), ("none.sch", b"")])?;
    assert_eq!(rt; report.as_slice(), REPORT);
    Ok(())
}

#[test]
fn ample_memory_is_enough_for_calls_of_no_command(rt: HostRuntime) -> Result<(), Fail> {
    let alloc = rt.alloc();
    let statements = parse(alloc, SOURCE).ok().ok_or("parse wants memory")?;
    assert_eq!(rt; statements.len(), 3);

    let (_, image) = program_and_image(alloc)?;
    assert!(rt; image.len() < ROOM);
    let image = read_image(alloc, &image)
        .ok()
        .ok_or("the image has a fault")?;
    let board = boot(alloc, &image).ok().ok_or("boot wants memory")?;
    assert_eq!(rt; board.envs(), 2);
    let lines = env_lines(alloc, &board, 1)
        .ok()
        .ok_or("env_lines wants memory")?;
    assert!(rt; lines.starts_with(b"env 1 two live\nout 1 0 \"\"\n"));
    Ok(())
}

#[test]
fn a_refused_read_ends_the_call(rt: HostRuntime) -> Result<(), Fail> {
    let alloc = rt.alloc();
    let (program, image) = program_and_image(alloc)?;
    let named = named_files(&program, &image);
    for command in COMMANDS {
        let words = command.words;
        // Each read, refused in turn, and at last none.
        for (at, name) in command.reads.iter().enumerate() {
            let read = u64::try_from(at)?;
            let end = ended(alloc, &Call { words, read, ..RUN }, &named)?;
            assert_eq!(rt; end.status.code(), Status::ReadFault.code(), "{name}");
            assert_eq!(rt; (end.written.len(), end.reads), (0, read.saturating_add(1)));
            assert_eq!(rt; end.failed.as_str(), *name);
        }
        let end = ended(alloc, &Call { words, ..RUN }, &named)?;
        assert_eq!(rt; end.status.code(), Status::Done.code());
        assert_eq!(rt; end.reads, u64::try_from(command.reads.len())?);
        assert_eq!(rt; end.failed.as_str(), "");
    }
    Ok(())
}

#[test]
fn a_refused_write_ends_the_call(rt: HostRuntime) -> Result<(), Fail> {
    let alloc = rt.alloc();
    let (program, image) = program_and_image(alloc)?;
    let named = named_files(&program, &image);
    for command in COMMANDS {
        let words = command.words;
        let whole = ended(alloc, &Call { words, ..RUN }, &named)?.written;
        assert!(rt; !whole.is_empty());
        for most in command.pieces {
            // Each write of so many bytes, refused in turn, and at last none.
            let writes = whole.len().div_ceil(most.max(1));
            for at in 0..=writes {
                let write = u64::try_from(at)?;
                let slow = Call {
                    words,
                    write,
                    most,
                    ..RUN
                };
                let end = ended(alloc, &slow, &named)?;
                let (status, length) = if at < writes {
                    (Status::WriteFault, at.saturating_mul(most))
                } else {
                    (Status::Done, whole.len())
                };
                assert_eq!(rt; end.status.code(), status.code(), "{write} of {most}");
                assert_eq!(rt;
                    Some(end.written.as_slice()),
                    whole.get(..length),
                    "{write} of {most}"
                );
            }
        }
    }
    Ok(())
}

#[test]
fn a_sink_without_room_ends_the_call(rt: HostRuntime) -> Result<(), Fail> {
    let alloc = rt.alloc();
    let (program, image) = program_and_image(alloc)?;
    let named = named_files(&program, &image);
    for command in COMMANDS {
        let words = command.words;
        let whole = ended(alloc, &Call { words, ..RUN }, &named)?.written;
        for room in [0, 10, whole.len().saturating_sub(1)] {
            let end = ended(alloc, &Call { words, room, ..RUN }, &named)?;
            assert_eq!(rt; end.status.code(), Status::WriteFault.code(), "{room}");
            assert_eq!(rt; Some(end.written.as_slice()), whole.get(..room), "{room}");
        }
    }
    Ok(())
}
