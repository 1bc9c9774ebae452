//! Scripts of the calls on the running list, reckoned by hand, and threads that meet at one. Each row has the number of
//! its hand, what the hand does, and what comes of it. Where two hands meet within one call, the call is made step by
//! step. Each test ends by a stated number of turns. A list and its hands are opened and dropped by the few functions
//! that play a script, since each function that owns them takes long to prove.
ghost use Rattle.epoch_pools.specs.Hands.{IsSeatCount};

use crate::calls::{Answer, Call};
use crate::keeping::{Seen, count_all, leave_all_away, mark_in_turn};
use crate::rows::{Move, play};
use crate::words::raise_word;
use crate::{close_all, open_list};
use epoch_pools::{Stuck, Taken, open_cut, ready};
use list_cuts::Cut;
use lock_core::{Mode, Step};
use marked_list::Lost;
use std::alloc::Global;
use std::process::Abort;
use std::sync::Wait;
use std::sync::atomic::{AtomicU64, Ordering};
use std::thread::Threads;

/// A node is taken, filled with a range and linked, all in one call.
const LINKS: Call = Call::QuickTake {
    lo: 0,
    hi: 1,
    mode: Mode::Writer,
};

/// The same with a range behind it.
const LINKS_BEHIND: Call = Call::QuickTake {
    lo: 10,
    hi: 11,
    mode: Mode::Writer,
};

/// The same with a range of three lists.
const LINKS_WIDE: Call = Call::QuickTake {
    lo: 0,
    hi: 12_288,
    mode: Mode::Writer,
};

/// A call that comes to what was asked for.
fn made(which: Call) -> Move {
    Move::Call(which, Answer::Made)
}

/// A call whose exchange finds another value.
fn lost(which: Call, place: u32, expected: u64, found: u64) -> Move {
    Move::Call(
        which,
        Answer::Lost(Lost {
            place,
            expected,
            found,
        }),
    )
}

/// A call that meets a node in conflict.
fn meets(which: Call, owner: u32, lo: u64, hi: u64, mode: Mode) -> Move {
    Move::Call(
        which,
        Answer::Conflict {
            owner,
            lo,
            hi,
            mode,
        },
    )
}

/// That node is taken.
fn takes(node: u32) -> Move {
    Move::Call(Call::Take, Answer::Taken(Taken::Node(node)))
}

/// No node is taken, and why.
fn stuck(why: Stuck) -> Move {
    Move::Call(Call::Take, Answer::Taken(Taken::Out(why)))
}

/// The node is filled with a range.
fn fills(lo: u64, hi: u64, mode: Mode) -> Move {
    made(Call::Fill { lo, hi, mode })
}

/// Plays a script on a new table of so many seats, under that cut: each row comes to what it states.
fn play_on_new(rt: &impl Abort, alloc: Global, seats: u32, cut: Cut, script: &[(usize, Move)])
    requires seats { IsSeatCount seats }
{
    let (list, mut hands) = open_cut(alloc, seats, cut, &[7]).expect(rt, "memory");
    assert_eq!(rt; play(&list, hands.as_mut_slice(), script), None);
    drop(hands);
    drop(list);
}

/// The same with one list and a script behind which all hands are idle: the list is closed, and its word is as it was.
fn play_and_close(rt: &impl Abort, alloc: Global, seats: u32, script: &[(usize, Move)])
    requires seats { IsSeatCount seats }
{
    let (list, mut hands) = open_list(alloc, seats, 7).expect(rt, "memory");
    assert_eq!(rt; play(&list, hands.as_mut_slice(), script), None);
    let words = close_all(list, alloc, hands).expect(rt, "idle hands, and memory");
    assert_eq!(rt; words.as_slice(), [7].as_slice());
}

/// Two threads hold two thousand ranges of ten numbers each, which begin so far apart from one another. It gives the
/// most other owners that one found counted while it held its range, and how many tries met a node in conflict.
fn hold_by_two<R: Threads + Wait + Sync + Abort>(rt: &R, alloc: Global, apart: u32) -> (u64, u64) {
    let (list, mut hands) = open_list(alloc, 2, 0).expect(rt, "memory");
    let seen = Seen {
        most: AtomicU64::new(0),
        met: AtomicU64::new(0),
    };
    count_all(rt, &list, hands.as_mut_slice(), 2000, apart, &seen);
    let words = close_all(list, alloc, hands).expect(rt, "idle hands, and memory");
    assert_eq!(rt; words.as_slice(), [0].as_slice());
    (
        seen.most.load(Ordering::SeqCst),
        seen.met.load(Ordering::SeqCst),
    )
}

#[test]
fn a_writer_meets_a_reader_that_was_linked_behind_its_walk(rt: HostRuntime) {
    let script = [
        (2, Move::Finds(32, 4, 5, Mode::Reader)),
        (2, Move::Holds),
        (1, Move::Finds(16, 10, 11, Mode::Writer)),
        (0, Move::Finds(0, 2, 15, Mode::Reader)),
        (0, Move::Holds),
        (1, made(Call::Link)),
        (1, meets(Call::Validate, 0, 2, 15, Mode::Reader)),
        (1, made(Call::Mark)),
        (1, made(Call::End)),
        (1, Move::Step(Step::Enter, 0)),
        (1, Move::Step(Step::Walk, 2)),
        (1, Move::Step(Step::Walk, 66)),
        (1, Move::Step(Step::ReadLo, 2)),
        (1, Move::Step(Step::ReadHi, 30)),
        (1, Move::Step(Step::Walk, 34)),
        (1, Move::Step(Step::ReadLo, 4)),
        (1, Move::Step(Step::ReadHi, 10)),
        (1, Move::Step(Step::Walk, 1)),
        (1, Move::Step(Step::Leave, 0)),
    ];
    play_on_new(&rt, rt.alloc(), 3, Cut::one(), &script);
}

#[test]
fn a_reader_waits_for_a_writer_that_was_linked_behind_its_place(rt: HostRuntime) {
    let script = [
        (2, Move::Finds(32, 4, 5, Mode::Reader)),
        (2, Move::Holds),
        (0, Move::Finds(0, 2, 15, Mode::Reader)),
        (1, Move::Finds(16, 10, 11, Mode::Writer)),
        (1, Move::Holds),
        (0, made(Call::Link)),
        (0, meets(Call::Validate, 1, 10, 11, Mode::Writer)),
        (0, meets(Call::Validate, 1, 10, 11, Mode::Writer)),
        (1, made(Call::Mark)),
        (0, made(Call::Validate)),
        (0, made(Call::End)),
    ];
    play_on_new(&rt, rt.alloc(), 3, Cut::one(), &script);
}

#[test]
fn a_link_is_lost_where_the_node_before_was_marked(rt: HostRuntime) {
    let script = [
        (0, Move::Finds(0, 0, 1, Mode::Writer)),
        (0, Move::Holds),
        (1, Move::Finds(16, 10, 11, Mode::Writer)),
        (0, made(Call::Mark)),
        (1, lost(Call::Link, 5, 0, 1)),
        (1, made(Call::Walk)),
        (1, Move::Holds),
        (0, Move::Sees(34)),
        (1, made(Call::Mark)),
    ];
    play_and_close(&rt, rt.alloc(), 2, &script);
}

#[test]
fn a_quick_link_is_settled_by_the_walk_of_another(rt: HostRuntime) {
    let script = [
        (0, takes(0)),
        (0, fills(0, 1, Mode::Writer)),
        (0, made(Call::QuickLink)),
        (1, Move::Finds(16, 10, 11, Mode::Writer)),
        (1, Move::Holds),
        (0, lost(Call::QuickUnlink, 0, 3, 2)),
        (0, made(Call::Mark)),
        (0, Move::Step(Step::Enter, 0)),
        (0, Move::Step(Step::Walk, 2)),
        (0, Move::Step(Step::Walk, 35)),
        (0, Move::Step(Step::Leave, 0)),
    ];
    play_on_new(&rt, rt.alloc(), 2, Cut::one(), &script);
}

#[test]
fn a_sweep_unlinks_all_nodes_of_two_hands(rt: HostRuntime) {
    let (list, mut hands) = open_list(rt.alloc(), 2, 7).expect(&rt, "memory");
    assert!(rt; mark_in_turn(&list, hands.as_mut_slice()));
    let script = [
        (0, stuck(Stuck::Away { node: 0 })),
        (1, made(Call::Sweep)),
        (1, Move::Sees(0)),
        (0, takes(0)),
        (1, takes(16)),
    ];
    assert_eq!(rt; play(&list, hands.as_mut_slice(), &script), None);
    for hand in hands.as_slice() {
        assert_eq!(rt; ready(hand), 15);
    }
}

#[test]
fn a_hand_inside_holds_up_nodes_that_were_swept(rt: HostRuntime) {
    let script = [
        (1, made(Call::Begin)),
        (0, Move::Turns(16)),
        (0, made(Call::Sweep)),
        (0, stuck(Stuck::Inside { seat: 1, epoch: 1 })),
        (1, made(Call::End)),
        (0, takes(0)),
    ];
    play_on_new(&rt, rt.alloc(), 2, Cut::one(), &script);
}

#[test]
fn a_node_is_not_used_again_under_a_traversal(rt: HostRuntime) {
    let script = [
        (0, Move::Turns(15)),
        (0, Move::Finds(15, 0, 1, Mode::Writer)),
        (0, Move::Holds),
        (1, Move::Finds(16, 10, 11, Mode::Writer)),
        (0, made(Call::Mark)),
        (2, Move::Finds(32, 20, 21, Mode::Reader)),
        (2, Move::Holds),
        (0, stuck(Stuck::Inside { seat: 1, epoch: 1 })),
        (1, lost(Call::Link, 66, 0, 1)),
        (1, made(Call::End)),
        (0, takes(0)),
        (0, Move::Sees(66)),
        (2, made(Call::Mark)),
    ];
    play_and_close(&rt, rt.alloc(), 3, &script);
}

#[test]
fn nodes_that_are_in_the_list_or_in_a_hand_are_away(rt: HostRuntime) {
    let (list, mut hands) = open_list(rt.alloc(), 16, 7).expect(&rt, "memory");
    assert!(rt; leave_all_away(&list, hands.as_mut_slice()));
    let script = [
        (1, Move::Step(Step::Enter, 0)),
        (1, Move::Step(Step::Walk, 32)),
        (1, Move::Step(Step::Walk, 35)),
        (1, Move::Step(Step::Unlink, 32)),
        (0, stuck(Stuck::Away { node: 0 })),
        (1, Move::Step(Step::GiveHome, 0)),
        (0, stuck(Stuck::Inside { seat: 1, epoch: 3 })),
        (1, Move::Step(Step::Leave, 0)),
        (0, takes(15)),
    ];
    assert_eq!(rt; play(&list, hands.as_mut_slice(), &script), None);
}

#[test]
fn a_seat_alone_goes_round_its_nodes_and_steps_on_a_word(rt: HostRuntime) {
    let alloc = rt.alloc();
    let (list, mut hands) = open_list(alloc, 1, 7).expect(&rt, "memory");
    let script = [
        (0, Move::Turns(20)),
        (0, takes(4)),
        (0, Move::Never(Call::Take)),
        (0, Move::Sees(8)),
    ];
    assert_eq!(rt; play(&list, hands.as_mut_slice(), &script), None);
    assert!(rt; raise_word(&list, hands.as_mut_slice(), 0));
    let words = close_all(list, alloc, hands).expect(&rt, "idle hands, and memory");
    assert_eq!(rt; words.as_slice(), [10].as_slice());
}

#[test]
fn a_walk_and_a_sweep_lose_a_node_to_a_sweep(rt: HostRuntime) {
    let script = [
        (0, Move::Finds(0, 0, 1, Mode::Writer)),
        (0, Move::Holds),
        (0, made(Call::Mark)),
        (1, takes(16)),
        (1, fills(10, 11, Mode::Writer)),
        (1, made(Call::Begin)),
        (1, Move::Step(Step::Walk, 2)),
        (1, Move::Step(Step::Walk, 1)),
        (2, made(Call::Begin)),
        (2, Move::Step(Step::Walk, 2)),
        (2, Move::Step(Step::Walk, 1)),
        (0, made(Call::Sweep)),
        (1, Move::Step(Step::Unlink, 0)),
        (1, made(Call::Walk)),
        (1, Move::Holds),
        (2, Move::Step(Step::Unlink, 34)),
        (2, made(Call::End)),
        (2, made(Call::Sweep)),
    ];
    play_on_new(&rt, rt.alloc(), 3, Cut::one(), &script);
}

#[test]
fn a_validation_loses_a_node_to_a_sweep(rt: HostRuntime) {
    let script = [
        (0, Move::Finds(0, 0, 1, Mode::Writer)),
        (0, Move::Holds),
        (1, Move::Finds(16, 10, 11, Mode::Writer)),
        (1, made(Call::Link)),
        (0, made(Call::Mark)),
        (1, Move::Step(Step::Walk, 2)),
        (1, Move::Step(Step::Walk, 35)),
        (0, made(Call::Sweep)),
        (1, Move::Step(Step::Unlink, 34)),
        (1, Move::Never(Call::End)),
        (1, made(Call::Validate)),
        (1, made(Call::End)),
    ];
    play_on_new(&rt, rt.alloc(), 2, Cut::one(), &script);
}

#[test]
fn a_conflict_names_the_range_that_was_met(rt: HostRuntime) {
    let script = [
        (0, takes(0)),
        (0, fills(0, 1, Mode::Writer)),
        (0, made(Call::QuickLink)),
        (1, Move::Never(Call::Validate)),
        (1, takes(16)),
        (1, fills(0, 2, Mode::Reader)),
        (1, lost(Call::QuickLink, 0, 0, 3)),
        (1, made(Call::Begin)),
        (1, meets(Call::Walk, 0, 0, 1, Mode::Writer)),
        (1, Move::Never(Call::Link)),
        (1, made(Call::End)),
        (0, lost(Call::QuickUnlink, 0, 3, 2)),
        (0, made(Call::Mark)),
        (0, made(Call::Sweep)),
    ];
    play_and_close(&rt, rt.alloc(), 2, &script);
}

#[test]
fn a_range_that_was_linked_at_once_is_unlinked_at_once(rt: HostRuntime) {
    let script = [
        (0, takes(0)),
        (0, fills(0, 1, Mode::Writer)),
        (0, made(Call::QuickLink)),
        (0, made(Call::QuickUnlink)),
        (0, Move::Step(Step::GiveHome, 0)),
        (1, Move::Sees(0)),
    ];
    play_and_close(&rt, rt.alloc(), 2, &script);
}

#[test]
fn lists_of_one_table_have_their_own_links_and_nodes(rt: HostRuntime) {
    let cut = Cut::of(3, 12).expect(&rt, "a cut");
    let either_order = [
        (0, Move::To(1)),
        (0, made(LINKS)),
        (0, made(Call::QuickGive)),
        (0, made(LINKS)),
        (0, Move::To(2)),
        (0, made(LINKS)),
        (1, Move::Sees(0)),
        (1, Move::To(1)),
        (1, Move::Sees(5)),
        (1, Move::To(2)),
        (1, Move::Sees(3)),
        (0, made(Call::QuickGive)),
        (1, Move::Sees(0)),
        (1, Move::To(1)),
        (1, Move::Sees(5)),
        (0, Move::To(1)),
        (0, made(Call::QuickGive)),
        (1, Move::Sees(0)),
        (0, made(LINKS)),
        (0, Move::To(2)),
        (0, made(LINKS)),
        (0, Move::To(1)),
        (0, made(Call::QuickGive)),
        (1, Move::Sees(0)),
        (1, Move::To(2)),
        (1, Move::Sees(5)),
        (0, Move::Ready(13)),
        (0, Move::To(2)),
        (0, made(Call::QuickGive)),
        (1, Move::Sees(0)),
        (0, Move::Ready(14)),
        (0, Move::To(3)),
        (0, Move::Ready(16)),
    ];
    play_on_new(&rt, rt.alloc(), 2, cut, &either_order);
    let settled_in_one = [
        (0, Move::To(1)),
        (0, made(LINKS)),
        (0, Move::To(2)),
        (0, made(LINKS)),
        (1, Move::To(1)),
        (1, lost(LINKS_BEHIND, 0, 0, 3)),
        (1, made(Call::Begin)),
        (1, made(Call::Walk)),
        (1, Move::Holds),
        (0, made(Call::QuickGive)),
        (0, Move::To(1)),
        (0, Move::Call(Call::QuickGive, Answer::NotAlone)),
        (0, made(Call::Mark)),
        (0, Move::Never(Call::QuickGive)),
        (1, made(Call::Mark)),
        (1, made(Call::Sweep)),
        (1, Move::Sees(0)),
    ];
    play_on_new(&rt, rt.alloc(), 2, cut, &settled_in_one);
    let held_up = stuck(Stuck::Inside { seat: 1, epoch: 1 });
    let home_in_one = [
        (1, Move::To(1)),
        (1, made(Call::Begin)),
        (0, Move::To(1)),
        (0, Move::Turns(16)),
        (0, made(Call::Sweep)),
        (0, held_up),
        (0, Move::To(2)),
        (0, Move::Ready(16)),
        (0, Move::Turns(16)),
        (0, made(Call::Sweep)),
        (0, Move::Never(LINKS)),
        (0, Move::To(1)),
        (0, held_up),
        (0, Move::Never(LINKS)),
        (0, Move::To(2)),
        (0, takes(0)),
        (0, Move::Ready(15)),
        (0, Move::To(1)),
        (0, held_up),
        (1, made(Call::End)),
        (0, takes(0)),
        (0, Move::Ready(15)),
    ];
    play_on_new(&rt, rt.alloc(), 2, cut, &home_in_one);
}

/// What `range_rw` does with a narrow range, which is linked in list 1, and a wide one, which is linked in list 0: each
/// hand looks at the other list behind its link, finds it not empty, sweeps it and links its range there too. The first
/// that does so meets the other one and gives way; the other goes on, and at the end each has held its range.
#[test]
fn a_wide_and_a_narrow_hand_meet_in_both_lists(rt: HostRuntime) {
    let cut = Cut::of(3, 12).expect(&rt, "a cut");
    let narrow_gives_way = [
        (0, Move::To(1)),
        (0, made(LINKS)),
        (1, made(LINKS_WIDE)),
        (0, Move::To(0)),
        (0, Move::Sees(35)),
        (1, Move::To(1)),
        (1, Move::Sees(3)),
        (0, made(Call::Sweep)),
        (0, Move::Sees(34)),
        (0, lost(LINKS, 0, 0, 34)),
        (0, made(Call::Begin)),
        (0, meets(Call::Walk, 1, 0, 12_288, Mode::Writer)),
        (0, made(Call::End)),
        (0, Move::Ready(16)),
        (0, Move::To(1)),
        (0, made(Call::QuickGive)),
        (1, made(Call::Sweep)),
        (1, Move::Sees(0)),
        (1, Move::To(2)),
        (1, Move::Sees(0)),
        (1, Move::To(3)),
        (1, Move::Sees(0)),
        (0, made(LINKS)),
        (0, Move::To(0)),
        (0, Move::Sees(34)),
        (0, lost(LINKS, 0, 0, 34)),
        (0, made(Call::Begin)),
        (0, meets(Call::Walk, 1, 0, 12_288, Mode::Writer)),
        (0, made(Call::End)),
        (1, Move::To(0)),
        (1, Move::Call(Call::QuickGive, Answer::NotAlone)),
        (1, made(Call::Mark)),
        (0, made(Call::Sweep)),
        (0, Move::Sees(0)),
        (0, Move::To(1)),
        (0, made(Call::QuickGive)),
    ];
    play_on_new(&rt, rt.alloc(), 2, cut, &narrow_gives_way);
    let wide_gives_way = [
        (1, made(LINKS_WIDE)),
        (0, Move::To(1)),
        (0, made(LINKS)),
        (1, Move::To(1)),
        (1, Move::Sees(3)),
        (0, Move::To(0)),
        (0, Move::Sees(35)),
        (1, made(Call::Sweep)),
        (1, Move::Sees(2)),
        (1, lost(LINKS_WIDE, 0, 0, 2)),
        (1, made(Call::Begin)),
        (1, meets(Call::Walk, 0, 0, 1, Mode::Writer)),
        (1, made(Call::End)),
        (1, Move::Ready(16)),
        (1, Move::To(0)),
        (1, made(Call::Mark)),
        (0, Move::Sees(35)),
        (0, made(Call::Sweep)),
        (0, Move::Sees(0)),
        (0, Move::To(1)),
        (0, Move::Call(Call::QuickGive, Answer::NotAlone)),
        (0, made(Call::Mark)),
        (1, made(LINKS_WIDE)),
        (1, Move::To(1)),
        (1, Move::Sees(2)),
        (1, made(Call::Sweep)),
        (1, Move::Sees(0)),
        (1, Move::To(2)),
        (1, Move::Sees(0)),
        (1, Move::To(3)),
        (1, Move::Sees(0)),
        (1, Move::To(0)),
        (1, made(Call::QuickGive)),
        (1, Move::Sees(0)),
    ];
    play_on_new(&rt, rt.alloc(), 2, cut, &wide_gives_way);
}

#[test]
fn two_threads_hold_two_thousand_ranges_each(rt: HostRuntime) {
    let (most, _) = hold_by_two(&rt, rt.alloc(), 0);
    assert_eq!(rt; most, 0, "other owners, of ranges that overlap");
    let (_, met) = hold_by_two(&rt, rt.alloc(), 100);
    assert_eq!(rt; met, 0, "conflicts, of ranges apart");
}
