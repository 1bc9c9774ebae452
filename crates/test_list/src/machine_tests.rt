//! Worked schedules of the list lock as a pure machine, step by step: for each step the value that its word has before
//! it and after it, and at the end the words and the held ranges. The places are those of locks of three and of two
//! seats; `QuickUnlink`, `Link` and the others that fail leave the word as it was found.

ghost use Rattle.std.specs.Prelude.{◌<◌};

use lock_core::{Grant, Mode, NotEnabled, Range, State, Step, apply, fresh, grants};
use std::alloc::Global;
use std::process::Abort;
use std::test::Fail;

/// A step of a seat, with the place of its word and the word before and after.
#[derive(Clone, Copy)]
struct Turn(u32, Step, u32, u64, u64);

const HEAD: u32 = 0;

fn play(rt: &impl Abort, state: &mut State, turns: &[Turn]) {
    for (i, Turn(seat, step, place, found, left)) in turns.iter().enumerate() {
        assert!(rt; *place < 1 + 65 * state.seats(), "place of step {i}");
        assert_eq!(rt; state.word(*place), *found, "found by step {i}");
        assert!(rt; apply(state, *seat, *step).is_ok(), "step {i}");
        assert!(rt; *place < 1 + 65 * state.seats(), "place of step {i}");
        assert_eq!(rt; state.word(*place), *left, "left by step {i}");
    }
}

/// The steps by which a seat takes a node and fills its range and mode. The words are the node's home, lo and hi word,
/// and the last one is left holding this value.
fn fills(
    seat: u32,
    node: u32,
    words: [u32; 3],
    ends: (u64, u64),
    mode: Mode,
    value: u64,
) -> [Turn; 3] {
    [
        Turn(seat, Step::ClearHome { node }, words[0], 0, 0),
        Turn(seat, Step::FillLo { lo: ends.0 }, words[1], 0, ends.0),
        Turn(seat, Step::FillHi { hi: ends.1, mode }, words[2], 0, value),
    ]
}

/// The same by a seat of three, with its first node.
fn fills_of_three(seat: usize, ends: (u64, u64), mode: Mode, value: u64) -> [Turn; 3]
    requires { seat < 3 }
{
    let words = [three::HOMES[seat], three::LOS[seat], three::HIS[seat]];
    fills(seat as u32, 16 * seat as u32, words, ends, mode, value)
}

fn reads(rt: &impl Abort, state: &State, words: &[(u32, u64)]) {
    for (place, word) in words {
        assert!(rt; *place < 1 + 65 * state.seats(), "place {place}");
        assert_eq!(rt; state.word(*place), *word, "word at {place}");
    }
}

/// The words of three seats and their nodes 0, 16 and 32.
mod three {
    pub const EPOCHS: [u32; 3] = [1, 2, 3];

    pub const LOS: [u32; 3] = [4, 68, 132];

    pub const HIS: [u32; 3] = [5, 69, 133];

    pub const NEXTS: [u32; 3] = [6, 70, 134];

    pub const HOMES: [u32; 3] = [7, 71, 135];
}

/// The words of two seats and their nodes 0 and 16.
mod two {
    pub const EPOCHS: [u32; 2] = [1, 2];

    pub const LOS: [u32; 2] = [3, 67];

    pub const HIS: [u32; 2] = [4, 68];

    pub const NEXTS: [u32; 2] = [5, 69];

    pub const HOMES: [u32; 2] = [6, 70];
}

/// Seat 2 links its node as a reader's and holds its range.
const READER_HOLDS: [Turn; 6] = [
    Turn(2, Step::Enter, three::EPOCHS[2], 0, 1),
    Turn(2, Step::Walk, HEAD, 0, 0),
    Turn(2, Step::Aim, three::NEXTS[2], 0, 0),
    Turn(2, Step::Link, HEAD, 0, 66),
    Turn(2, Step::Walk, three::NEXTS[2], 0, 0),
    Turn(2, Step::Leave, three::EPOCHS[2], 1, 2),
];

/// Seat 1 walks with the writer range 10 to 11, to the end.
const WRITER_WALKS: [Turn; 6] = [
    Turn(1, Step::Enter, three::EPOCHS[1], 0, 1),
    Turn(1, Step::Walk, HEAD, 66, 66),
    Turn(1, Step::Walk, three::NEXTS[2], 0, 0),
    Turn(1, Step::ReadLo, three::LOS[2], 4, 4),
    Turn(1, Step::ReadHi, three::HIS[2], 10, 10),
    Turn(1, Step::Aim, three::NEXTS[1], 0, 0),
];

/// Seat 0 inserts the reader range 2 to 15 before the node of seat 2.
const READER_INSERTS: [Turn; 12] = [
    Turn(0, Step::Enter, three::EPOCHS[0], 0, 1),
    Turn(0, Step::Walk, HEAD, 66, 66),
    Turn(0, Step::Walk, three::NEXTS[2], 0, 0),
    Turn(0, Step::ReadLo, three::LOS[2], 4, 4),
    Turn(0, Step::ReadHi, three::HIS[2], 10, 10),
    Turn(0, Step::Aim, three::NEXTS[0], 0, 66),
    Turn(0, Step::Link, HEAD, 66, 2),
    Turn(0, Step::Walk, three::NEXTS[0], 66, 66),
    Turn(0, Step::Walk, three::NEXTS[2], 0, 0),
    Turn(0, Step::ReadLo, three::LOS[2], 4, 4),
    Turn(0, Step::ReadHi, three::HIS[2], 10, 10),
    Turn(0, Step::Leave, three::EPOCHS[0], 1, 2),
];

/// Seat 1 links behind the node of seat 2, finds the reader from the head, and marks its node.
const WRITER_GIVES_WAY: [Turn; 7] = [
    Turn(1, Step::Link, three::NEXTS[2], 0, 34),
    Turn(1, Step::Walk, HEAD, 2, 2),
    Turn(1, Step::Walk, three::NEXTS[0], 66, 66),
    Turn(1, Step::ReadLo, three::LOS[0], 2, 2),
    Turn(1, Step::ReadHi, three::HIS[0], 30, 30),
    Turn(1, Step::Mark, three::NEXTS[1], 0, 1),
    Turn(1, Step::Leave, three::EPOCHS[1], 1, 2),
];

/// Seat 2 takes its node and fills the lower end.
const THIRD_TAKES: [Turn; 2] = [
    Turn(2, Step::ClearHome { node: 32 }, three::HOMES[2], 0, 0),
    Turn(2, Step::FillLo { lo: 20 }, three::LOS[2], 0, 20),
];

/// Seat 2 unlinks the marked node, gives it home and links its own.
const THIRD_UNLINKS: [Turn; 7] = [
    Turn(2, Step::Enter, three::EPOCHS[2], 0, 1),
    Turn(2, Step::Walk, HEAD, 2, 2),
    Turn(2, Step::Walk, three::NEXTS[0], 1, 1),
    Turn(2, Step::Unlink, HEAD, 2, 0),
    Turn(2, Step::GiveHome, three::HOMES[0], 0, 1),
    Turn(2, Step::Aim, three::NEXTS[2], 0, 0),
    Turn(2, Step::Link, HEAD, 0, 66),
];

/// Seat 0 links its node as a writer's and holds its range.
const FIRST_HOLDS: [Turn; 6] = [
    Turn(0, Step::Enter, three::EPOCHS[0], 0, 1),
    Turn(0, Step::Walk, HEAD, 0, 0),
    Turn(0, Step::Aim, three::NEXTS[0], 0, 0),
    Turn(0, Step::Link, HEAD, 0, 2),
    Turn(0, Step::Walk, HEAD, 2, 2),
    Turn(0, Step::Leave, three::EPOCHS[0], 1, 2),
];

/// Seat 1 walks with the writer range 10 to 11 past the node of seat 0, which is marked then.
const SECOND_STANDS: [Turn; 7] = [
    Turn(1, Step::Enter, three::EPOCHS[1], 0, 1),
    Turn(1, Step::Walk, HEAD, 2, 2),
    Turn(1, Step::Walk, three::NEXTS[0], 0, 0),
    Turn(1, Step::ReadLo, three::LOS[0], 0, 0),
    Turn(1, Step::ReadHi, three::HIS[0], 3, 3),
    Turn(1, Step::Aim, three::NEXTS[1], 0, 0),
    Turn(0, Step::Mark, three::NEXTS[0], 0, 1),
];

/// Seat 0 finds its node at home, and seat 1 still inside.
const FIRST_LOOKS: [Turn; 3] = [
    Turn(0, Step::ReadHome { node: 0 }, three::HOMES[0], 1, 1),
    Turn(0, Step::ReadEpoch { seat: 1 }, three::EPOCHS[1], 1, 1),
    Turn(0, Step::ReadEpoch { seat: 2 }, three::EPOCHS[2], 2, 2),
];

/// Seat 1 fails to link and leaves, which seat 0 finds.
const SECOND_LEAVES: [Turn; 3] = [
    Turn(1, Step::Link, three::NEXTS[0], 1, 1),
    Turn(1, Step::Leave, three::EPOCHS[1], 1, 2),
    Turn(0, Step::ReadEpoch { seat: 1 }, three::EPOCHS[1], 2, 2),
];

/// Seat 0 links its node and holds its range.
const FIRST_LINKS: [Turn; 6] = [
    Turn(0, Step::Enter, two::EPOCHS[0], 0, 1),
    Turn(0, Step::Walk, HEAD, 0, 0),
    Turn(0, Step::Aim, two::NEXTS[0], 0, 0),
    Turn(0, Step::Link, HEAD, 0, 2),
    Turn(0, Step::Walk, HEAD, 2, 2),
    Turn(0, Step::Leave, two::EPOCHS[0], 1, 2),
];

/// Seat 1 walks past the node of seat 0, which is marked then; it fails to link, unlinks that node and links its own.
const SECOND_LINKS: [Turn; 15] = [
    Turn(1, Step::Walk, HEAD, 2, 2),
    Turn(1, Step::Walk, two::NEXTS[0], 0, 0),
    Turn(1, Step::ReadLo, two::LOS[0], 0, 0),
    Turn(1, Step::ReadHi, two::HIS[0], 3, 3),
    Turn(1, Step::Aim, two::NEXTS[1], 0, 0),
    Turn(0, Step::Mark, two::NEXTS[0], 0, 1),
    Turn(1, Step::Link, two::NEXTS[0], 1, 1),
    Turn(1, Step::Walk, HEAD, 2, 2),
    Turn(1, Step::Walk, two::NEXTS[0], 1, 1),
    Turn(1, Step::Unlink, HEAD, 2, 0),
    Turn(1, Step::GiveHome, two::HOMES[0], 0, 1),
    Turn(1, Step::Aim, two::NEXTS[1], 0, 0),
    Turn(1, Step::Link, HEAD, 0, 34),
    Turn(1, Step::Walk, HEAD, 34, 34),
    Turn(1, Step::Leave, two::EPOCHS[1], 1, 2),
];

/// Seat 0 links its node into the empty list at once.
const FIRST_QUICK: [Turn; 2] = [
    Turn(0, Step::Aim, two::NEXTS[0], 0, 0),
    Turn(0, Step::QuickLink, HEAD, 0, 3),
];

/// Seat 1 settles the head and links behind the node of seat 0, which then fails to unlink it at once and marks it.
const SECOND_SETTLES: [Turn; 14] = [
    Turn(1, Step::Walk, HEAD, 3, 3),
    Turn(1, Step::Settle, HEAD, 3, 2),
    Turn(1, Step::Walk, two::NEXTS[0], 0, 0),
    Turn(1, Step::ReadLo, two::LOS[0], 0, 0),
    Turn(1, Step::ReadHi, two::HIS[0], 3, 3),
    Turn(1, Step::Aim, two::NEXTS[1], 0, 0),
    Turn(1, Step::Link, two::NEXTS[0], 0, 34),
    Turn(1, Step::Walk, HEAD, 2, 2),
    Turn(1, Step::Walk, two::NEXTS[0], 34, 34),
    Turn(1, Step::ReadLo, two::LOS[0], 0, 0),
    Turn(1, Step::ReadHi, two::HIS[0], 3, 3),
    Turn(1, Step::Leave, two::EPOCHS[1], 1, 2),
    Turn(0, Step::QuickUnlink, HEAD, 2, 2),
    Turn(0, Step::Mark, two::NEXTS[0], 34, 35),
];

#[test]
fn a_reader_inserts_behind_a_writers_walk(rt: HostRuntime) -> Result<(), Fail> {
    let mut state = fresh(rt.alloc(), 3)?;
    let filled = fills_of_three(2, (4, 5), Mode::Reader, 10);
    play(&rt, &mut state, &filled);
    play(&rt, &mut state, &READER_HOLDS);
    let filled = fills_of_three(1, (10, 11), Mode::Writer, 23);
    play(&rt, &mut state, &filled);
    play(&rt, &mut state, &WRITER_WALKS);
    let filled = fills_of_three(0, (2, 15), Mode::Reader, 30);
    play(&rt, &mut state, &filled);
    play(&rt, &mut state, &READER_INSERTS);
    play(&rt, &mut state, &WRITER_GIVES_WAY);
    reads(
        &rt,
        &state,
        &[
            (HEAD, 2),
            (three::NEXTS[0], 66),
            (three::NEXTS[2], 34),
            (three::NEXTS[1], 1),
        ],
    );
    let held = grants(rt.alloc(), &state)?;
    let want = [
        Grant {
            seat: 0,
            range: Range::of(2, 15)?,
            mode: Mode::Reader,
        },
        Grant {
            seat: 2,
            range: Range::of(4, 5)?,
            mode: Mode::Reader,
        },
    ];
    assert_eq!(rt; held.as_slice(), want.as_slice());
    Ok(())
}

/// Seat 0 holds 0 to 1 as a writer and marks its node while seat 1 stands on it; seat 2 unlinks that node and gives
/// it home before it links its own, with these last steps. Only when seat 1 has left may seat 0 use the node again.
fn comes_home(
    rt: &impl Abort,
    alloc: Global,
    mode: Mode,
    word: u64,
    last: &[Turn],
) -> Result<(), Fail> {
    let mut state = fresh(alloc, 3)?;
    let filled = fills_of_three(0, (0, 1), Mode::Writer, 3);
    play(rt, &mut state, &filled);
    play(rt, &mut state, &FIRST_HOLDS);
    let filled = fills_of_three(1, (10, 11), Mode::Writer, 23);
    play(rt, &mut state, &filled);
    play(rt, &mut state, &SECOND_STANDS);
    play(rt, &mut state, &THIRD_TAKES);
    play(
        rt,
        &mut state,
        &[Turn(2, Step::FillHi { hi: 21, mode }, three::HIS[2], 0, word)],
    );
    play(rt, &mut state, &THIRD_UNLINKS);
    play(rt, &mut state, last);
    play(rt, &mut state, &FIRST_LOOKS);
    let early = apply(&mut state, 0, Step::ClearHome { node: 0 });
    assert_eq!(rt; early, Err(NotEnabled { seat: 0, kind: 9 }));
    play(rt, &mut state, &SECOND_LEAVES);
    assert!(rt; state.seats() == 3);
    let ready = [1, 2, 3, 4, 5, 6, 7, 8, 9, 10, 11, 12, 13, 14, 15, 0];
    assert_eq!(rt; state.ready(0), ready.as_slice());
    reads(rt, &state, &[(HEAD, 66)]);
    let held = grants(alloc, &state)?;
    let want = [Grant {
        seat: 2,
        range: Range::of(20, 21)?,
        mode,
    }];
    assert_eq!(rt; held.as_slice(), want.as_slice());
    Ok(())
}

#[test]
fn a_node_is_not_used_again_under_a_traversal(rt: HostRuntime) -> Result<(), Fail> {
    let reader = [
        Turn(2, Step::Walk, three::NEXTS[2], 0, 0),
        Turn(2, Step::Leave, three::EPOCHS[2], 1, 2),
    ];
    comes_home(&rt, rt.alloc(), Mode::Reader, 42, &reader)?;
    let writer = [
        Turn(2, Step::Walk, HEAD, 66, 66),
        Turn(2, Step::Leave, three::EPOCHS[2], 1, 2),
    ];
    comes_home(&rt, rt.alloc(), Mode::Writer, 43, &writer)
}

/// Seat 0 of two fills its node with the writer range 0 to 1.
fn first_fills() -> [Turn; 3] {
    let words = [two::HOMES[0], two::LOS[0], two::HIS[0]];
    fills(0, 0, words, (0, 1), Mode::Writer, 3)
}

/// Seat 1 of two fills its node with the writer range 10 to 11.
fn second_fills() -> [Turn; 3] {
    let words = [two::HOMES[1], two::LOS[1], two::HIS[1]];
    fills(1, 16, words, (10, 11), Mode::Writer, 23)
}

/// Seat 1 of two begins its operation.
const SECOND_ENTERS: [Turn; 1] = [Turn(1, Step::Enter, two::EPOCHS[1], 0, 1)];

/// The one held range is the writer's from 10 to 11 of seat 1.
fn second_holds(rt: &impl Abort, alloc: Global, state: &State) -> Result<(), Fail> {
    let held = grants(alloc, state)?;
    let want = [Grant {
        seat: 1,
        range: Range::of(10, 11)?,
        mode: Mode::Writer,
    }];
    assert_eq!(rt; held.as_slice(), want.as_slice());
    Ok(())
}

#[test]
fn a_link_behind_a_marked_node_fails(rt: HostRuntime) -> Result<(), Fail> {
    let mut state = fresh(rt.alloc(), 2)?;
    play(&rt, &mut state, &first_fills());
    play(&rt, &mut state, &FIRST_LINKS);
    play(&rt, &mut state, &second_fills());
    play(&rt, &mut state, &SECOND_ENTERS);
    play(&rt, &mut state, &SECOND_LINKS);
    reads(
        &rt,
        &state,
        &[(HEAD, 34), (two::NEXTS[0], 1), (two::HOMES[0], 1)],
    );
    second_holds(&rt, rt.alloc(), &state)
}

#[test]
fn a_settled_head_is_not_unlinked_at_once(rt: HostRuntime) -> Result<(), Fail> {
    let mut state = fresh(rt.alloc(), 2)?;
    play(&rt, &mut state, &first_fills());
    play(&rt, &mut state, &FIRST_QUICK);
    play(&rt, &mut state, &second_fills());
    play(&rt, &mut state, &SECOND_ENTERS);
    play(&rt, &mut state, &SECOND_SETTLES);
    reads(
        &rt,
        &state,
        &[(HEAD, 2), (two::NEXTS[0], 35), (two::NEXTS[1], 0)],
    );
    second_holds(&rt, rt.alloc(), &state)
}

#[test]
fn each_kind_is_refused_where_the_view_does_not_enable_it(rt: HostRuntime) -> Result<(), Fail> {
    let mut state = fresh(rt.alloc(), 2)?;
    let refused = [
        (2, Step::Leave),
        (3, Step::ReadEpoch { seat: 1 }),
        (4, Step::ReadHome { node: 0 }),
        (5, Step::GiveHome),
        (6, Step::FillLo { lo: 1 }),
        (
            7,
            Step::FillHi {
                hi: 2,
                mode: Mode::Reader,
            },
        ),
        (8, Step::Aim),
        (9, Step::ClearHome { node: 1 }),
        (10, Step::Walk),
        (11, Step::ReadLo),
        (12, Step::ReadHi),
        (13, Step::Link),
        (14, Step::Unlink),
        (15, Step::Mark),
        (16, Step::QuickLink),
        (17, Step::QuickUnlink),
        (18, Step::Settle),
    ];
    for (kind, step) in refused {
        assert_eq!(rt;
            apply(&mut state, 0, step),
            Err(NotEnabled { seat: 0, kind })
        );
    }
    assert_eq!(rt;
        apply(&mut state, 2, Step::Enter),
        Err(NotEnabled { seat: 2, kind: 1 })
    );
    assert!(rt; state.seats() == 2);
    for place in 0..131 {
        assert_eq!(rt; state.word(place), 0, "word at {place}");
    }
    play(
        &rt,
        &mut state,
        &[Turn(0, Step::Enter, two::EPOCHS[0], 0, 1)],
    );
    assert_eq!(rt;
        apply(&mut state, 0, Step::Enter),
        Err(NotEnabled { seat: 0, kind: 1 })
    );
    reads(&rt, &state, &[(two::EPOCHS[0], 1)]);
    Ok(())
}
