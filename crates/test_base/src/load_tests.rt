//! What no clause says of a load: the numbers that it draws and the lines that it makes, worked by hand from the table.
use bitflags::Flags;
use load_lines::{MadeLine, draw, made_lines};
use page_types::{Access, Call, MapFlags, PAGE, Prot};
use std::process::Abort;
use std::test::Fail;

/// The first draws of seed 1.
const DRAWS: [u64; 18] = [
    16838, 5758, 10113, 17515, 31051, 5627, 23010, 7419, 16212, 4086, 2749, 12767, 9084, 12060,
    32225, 17543, 25089, 21183,
];

/// Fails the test unless the next draw is this one. The state is below 2^31, as every state of a draw is.
fn draws(rt: &impl Abort, state: u64, wanted: u64) -> u64 {
    let mut next = state % 2_147_483_648;
    assert_eq!(rt; draw(&mut next), wanted);
    next
}

#[test]
fn the_draws_of_seed_1(rt: HostRuntime) {
    let mut state = 1;
    for wanted in DRAWS {
        state = draws(&rt, state, wanted);
    }
}

/// A Protect of so many pages from this one on.
fn protect(page: u32, pages: u32, bits: u8) -> Call {
    Call::Protect {
        addr: u64::from(page) * PAGE,
        len: u64::from(pages) * PAGE,
        prot: Prot::from_bits_retain(bits),
    }
}

/// Fails the test unless a line is of this worker, has this number and makes this call.
fn is_line(rt: &impl Abort, made: &MadeLine, worker: u32, line: u32, call: Call) {
    assert_eq!(rt; (made.worker, made.line), (worker, line));
    assert_eq!(rt; made.call, call);
}

/// Fails the test unless these are the first lines of seed 1 by one worker. The fifth is a Map, private and fixed.
fn are_first_lines(rt: &impl Abort, lines: &[MadeLine]) {
    assert_eq!(rt; lines.len(), 5);
    // 16838, 5758, 10113, 17515
    let fault = Call::Fault {
        addr: 74 * PAGE,
        access: Access::Write,
    };
    is_line(rt, &lines[0], 0, 1, fault);
    // 31051, 5627, 23010, 7419
    is_line(rt, &lines[1], 0, 2, protect(63, 3, 3));
    // 16212, 4086, 2749, 12767
    is_line(rt, &lines[2], 0, 3, protect(22, 2, 7));
    // 9084, 12060, 32225, 17543
    is_line(rt, &lines[3], 0, 4, protect(16, 2, 7));
    assert_eq!(rt; (lines[4].worker, lines[4].line), (0, 5));
    assert!(rt; is_private_and_fixed(&lines[4].call));
}

/// Whether it is a Map with these two flags and no other.
fn is_private_and_fixed(call: &Call) -> bool {
    match call {
        Call::Map { flags, .. } => *flags == MapFlags::from_bits_retain(6),
        _ => false,
    }
}

#[test]
fn the_first_calls_of_seed_1(rt: HostRuntime) -> Result<(), Fail> {
    let lines = made_lines(rt.alloc(), 1, 1, 5)?;
    are_first_lines(&rt, &lines);
    Ok(())
}

/// Fails the test unless three workers take turns, each on pages of its own.
fn take_turns(rt: &impl Abort, lines: &[MadeLine]) {
    assert_eq!(rt; lines.len(), 5);
    is_line(rt, &lines[1], 1, 2, protect(1_048_576 + 63, 3, 3));
    assert_eq!(rt; (lines[3].worker, lines[4].worker), (0, 1));
}

#[test]
fn the_workers_take_turns_on_pages_of_their_own(rt: HostRuntime) -> Result<(), Fail> {
    let lines = made_lines(rt.alloc(), 1, 3, 5)?;
    take_turns(&rt, &lines);
    assert_eq!(rt; made_lines(rt.alloc(), 0, 16, 0)?.len(), 0);
    Ok(())
}
