//! Words that are refused, and runs, worked out by hand.
use super::*;
use aegis_limits::PAGE_SIZE;
use filter_core::Packet;
use handler_rules::{HandlerEnd, verify};

/// A branch that is always taken, by so many words from the word behind it.
const BRANCH: u32 = 0x1000_0000;

const NOP: u32 = 0;

const SYSCALL: u32 = 0x0000_000c;

const BREAK: u32 = 0x0000_000d;

/// The number of the first bad word, and 99 where there is none.
fn refused_at(words: &[u32]) -> u32 {
    match verify(words) {
        Ok(_) => 99,
        Err(fault) => fault.at,
    }
}

#[test]
fn names_the_first_bad_word(rt: HostRuntime) {
    assert_eq!(rt; refused_at(&[NOP; 64]), 99);
    assert_eq!(rt; refused_at(&[NOP; 65]), 64);
    assert_eq!(rt;
        refused_at(&[BRANCH + 0xffff, NOP]),
        0,
        "goes back to itself"
    );
    assert_eq!(rt; refused_at(&[BRANCH, NOP]), 0, "goes to its slot");
    assert_eq!(rt; refused_at(&[BRANCH + 1, NOP]), 99, "goes to the end");
    assert_eq!(rt; refused_at(&[BRANCH + 2, NOP]), 0, "goes past the end");
    assert_eq!(rt; refused_at(&[NOP, BRANCH + 1]), 1, "has no slot");
    assert_eq!(rt;
        refused_at(&[BRANCH + 1, BRANCH + 1, NOP, NOP]),
        1,
        "branch in a slot"
    );
    assert_eq!(rt; refused_at(&[BRANCH + 1, SYSCALL]), 1, "SYSCALL in a slot");
    assert_eq!(rt; refused_at(&[BRANCH + 1, BREAK]), 1, "BREAK in a slot");
    assert_eq!(rt; refused_at(&[NOP, NOP, 0x0000_0020, BRANCH]), 2, "ADD");
    assert_eq!(rt; refused_at(&[0x0800_0000, NOP]), 0, "J");
    assert_eq!(rt; refused_at(&[0x0000_0008, NOP]), 0, "JR");
    assert_eq!(rt; refused_at(&[0x8800_0000]), 0, "LWL");
}

/// How the words run over a packet of fifteen bytes, from 0 up, and a page of zeros: whether they end as done, how many
/// replies they make, how many bytes the last has, and the page's first four bytes.
fn run(words: &[u32]) -> (bool, u32, usize, [u8; 4]) {
    let bytes = [0, 1, 2, 3, 4, 5, 6, 7, 8, 9, 10, 11, 12, 13, 14];
    let mut page = [0; PAGE_SIZE];
    let mut replies = Replies::new();
    let (Ok(handler), Some(packet)) = (verify(words), Packet::view(&bytes)) else {
        return (false, 99, 0, [0; 4]);
    };
    let end = run_handler(&handler, &packet, 7, &mut page, &mut replies);
    let size = if replies.count() > 0 {
        replies.reply(replies.count() - 1).len()
    } else {
        0
    };
    let first = [page[0], page[1], page[2], page[3]];
    (
        matches!(end, HandlerEnd::Done),
        replies.count(),
        size,
        first,
    )
}

#[test]
fn runs_as_worked_out_by_hand(rt: HostRuntime) {
    // `$9 = 0x1000`, which is stored there; then a store at 0x2000
    let store = run(&[0x3409_1000, 0xad29_0000, 0x3408_2000, 0xad08_0000]);
    assert_eq!(rt; store, (false, 0, 0, [0, 0x10, 0, 0]));
    // a store at 0, which is the packet's, and a misaligned one
    let packet = run(&[0x3409_1000, 0xad29_0000, 0xa000_0000]);
    assert_eq!(rt; packet, (false, 0, 0, [0, 0x10, 0, 0]));
    let misaligned = run(&[0x3409_1000, 0xad29_0000, 0xad29_0002]);
    assert_eq!(rt; misaligned, (false, 0, 0, [0, 0x10, 0, 0]));
    // the length of the packet and the number of the claim
    let entry = run(&[0x3409_1000, 0xa124_0000, 0xa125_0001]);
    assert_eq!(rt; entry, (true, 0, 0, [15, 7, 0, 0]));
    // a word of the packet, and one that it hasn't got whole
    let load = run(&[0x8c08_0008, 0xac08_1000, 0x8c08_000c]);
    assert_eq!(rt; load, (false, 0, 0, [8, 9, 10, 11]));
    // a reply of 14 bytes, and one of 13
    let reply = run(&[0x3404_1000, 0x3405_000e, SYSCALL, BREAK]);
    assert_eq!(rt; reply, (true, 1, 14, [0; 4]));
    let short = run(&[0x3404_1000, 0x3405_000d, SYSCALL, BREAK]);
    assert_eq!(rt; short, (false, 0, 0, [0; 4]));
    // four replies, and a fifth
    let five = run(&[
        0x3404_1000,
        0x3405_05ea,
        SYSCALL,
        SYSCALL,
        SYSCALL,
        SYSCALL,
        SYSCALL,
    ]);
    assert_eq!(rt; five, (false, 4, 1514, [0; 4]));
    // a branch over a store to the packet, with its slot
    let over = run(&[BRANCH + 2, 0x3409_1000, 0xa000_0000, 0xad29_0000]);
    assert_eq!(rt; over, (true, 0, 0, [0, 0x10, 0, 0]));
}
