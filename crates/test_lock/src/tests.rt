//! Worked tries, and threads that meet at one table. Each test ends by a stated number of turns; what it expects is
//! reckoned by hand, never taken from the program.
ghost use Rattle.std.specs.Prelude.{◌≡◌, None};

use crate::crowd::{tally_of, visit_all};
use crate::hold_times;
use crate::holds::{give, hold, refuse};
use crate::opened::{open_tally, open_turnstile};
use crate::pairs::{both, in_order};
use list_cuts::Cut;
use lock_core::{FreeGuard, Mode, Range};
use range_rw::{NotHeld, OpenFault, RangeTable, Seat, Stuck};
use std::alloc::Global;
use std::process::Abort;
use std::sync::Wait;
use std::sync::atomic::{AtomicU64, Ordering};
use std::thread::Threads;

/// Two seats that hold nothing try beside each other, and give back what they got.
fn try_by_turns(
    rt: &impl Abort,
    table: &RangeTable<FreeGuard>,
    a: &mut Seat<FreeGuard>,
    b: &mut Seat<FreeGuard>,
)
    requires a { (a.old.table ≡ table.now.table) × (a.old.number ≡ 0) × (a.old.held ≡ None) }
    requires b { (b.old.table ≡ table.now.table) × (b.old.number ≡ 1) × (b.old.held ≡ None) }
    ensures a { (a.new.table ≡ table.now.table) × (a.new.number ≡ 0) × (a.new.held ≡ None) }
    ensures b { (b.new.table ≡ table.now.table) × (b.new.number ≡ 1) × (b.new.held ≡ None) }
{
    let first = Range::of(0, 10).expect(rt, "a range");
    let far = Range::of(20, 21).expect(rt, "a range");
    let inner = Range::of(5, 6).expect(rt, "a range");
    hold(rt, table, a, first, Mode::Reader);
    hold(rt, table, b, far, Mode::Writer);
    assert_eq!(rt; table.held(b), Some((far, Mode::Writer)));
    give(table, b);
    let busy = NotHeld::Busy {
        owner: 0,
        range: first,
        mode: Mode::Reader,
    };
    refuse(rt, table, b, inner, Mode::Writer, busy);
    assert_eq!(rt; table.held(b), None);
    give(table, a);
    hold(rt, table, b, inner, Mode::Writer);
    give(table, b);
}

#[test]
fn tries_answer_as_worked_by_hand(rt: HostRuntime) {
    let alloc = rt.alloc();
    let (table, seats) = RangeTable::<FreeGuard>::open(alloc, 2, &[7]).expect(&rt, "memory");
    let (mut a, mut b) = both(&table, seats);
    try_by_turns(&rt, &table, &mut a, &mut b);
    let seats = in_order(alloc, &table, a, b).expect(&rt, "memory");
    let Ok(words) = table.close(alloc, seats) else {
        panic!(rt; "memory");
    };
    assert_eq!(rt; words.as_slice(), [7].as_slice());
}

#[test]
fn a_table_has_from_one_to_sixteen_seats(rt: HostRuntime) {
    for seats in [0, 17] {
        match RangeTable::<FreeGuard>::open(rt.alloc(), seats, &[]) {
            Ok(_) => panic!(rt; "{seats} seats"),
            Err(fault) => assert_eq!(rt; fault, OpenFault::Seats(seats)),
        }
    }
    assert!(rt; open_tally(rt.alloc(), 16, 7).is_ok());
}

#[test]
fn two_threads_add_four_thousand(rt: HostRuntime) {
    let alloc = rt.alloc();
    assert_eq!(rt; tally_of(&rt, alloc, 2, 0, 2000), Some(4000));
    assert_eq!(rt; tally_of(&rt, alloc, 3, u64::MAX, 1), Some(2));
}

/// So many threads visit so many times each, in a table with a list for each region of the cut: nobody sees a writer
/// inside, and nobody is left there.
fn visit_beside<R: Threads + Wait + Sync + Abort>(
    rt: &R,
    alloc: Global,
    count: u32,
    cut: Cut,
    turns: u32,
) {
    let (table, mut seats) = open_turnstile(alloc, count, cut).expect(rt, "memory");
    let most = AtomicU64::new(0);
    visit_all(rt, &table, seats.as_mut_slice(), turns, &most);
    assert_eq!(rt; most.load(Ordering::SeqCst), 0);
    let Ok(words) = table.close(alloc, seats) else {
        panic!(rt; "memory");
    };
    assert_eq!(rt; words.as_slice(), [0].as_slice());
}

#[test]
fn threads_never_see_a_writer_inside(rt: HostRuntime) {
    let seven = Cut::of(7, 3).expect(&rt, "a cut");
    for (count, cut, turns) in [(4, Cut::one(), 1000), (16, seven, 200)] {
        visit_beside(&rt, rt.alloc(), count, cut, turns);
    }
}

/// Two threads whose ranges exclude each other, and four, each have all their turns. In blocks of 64 numbers all ranges
/// lie in one region: a writer and a reader meet there. In blocks of eight a narrow writer and a wide reader meet in
/// list 0 and in the region's list, and of four threads a wide writer meets two narrow ones.
#[test]
fn threads_that_exclude_each_other_all_have_their_turns(rt: HostRuntime) {
    let whole = Cut::of(7, 6).expect(&rt, "a cut");
    let seven = Cut::of(7, 3).expect(&rt, "a cut");
    for (count, cut, turns) in [(2, whole, 500), (2, seven, 500), (4, seven, 300)] {
        visit_beside(&rt, rt.alloc(), count, cut, turns);
    }
}

/// A seat has a scan open, behind so many tries of its own, and another makes sixteen tries beside it, which take its
/// sixteen nodes. The next has no node until the scan is ended. The scan is the first operation of its seat that enters
/// an epoch, as that refusal tells: so each try at the empty list took a node, filled it and linked it at once, in five
/// steps, and each release unlinked it and gave it home, in two.
fn try_behind(
    rt: &impl Abort,
    table: &RangeTable<FreeGuard>,
    a: &mut Seat<FreeGuard>,
    b: &mut Seat<FreeGuard>,
    before: u32,
    mode: Mode,
)
    requires a { (a.old.table ≡ table.now.table) × (a.old.held ≡ None) }
    requires b { (b.old.table ≡ table.now.table) × (b.old.held ≡ None) }
{
    let range = Range::of(0, 1).expect(rt, "a range");
    assert_eq!(rt; hold_times(table, b, range, mode, before), before);
    let scan = table.scan(b);
    assert_eq!(rt; hold_times(table, a, range, mode, 16), 16);
    let inside = NotHeld::NoNode {
        list: 0,
        stuck: Stuck::Inside { seat: 1, epoch: 1 },
    };
    refuse(rt, table, a, range, mode, inside);
    scan.end();
    assert_eq!(rt; hold_times(table, a, range, mode, 1), 1);
}

/// The same on a new table.
fn try_beside_a_scan(rt: &impl Abort, alloc: Global, before: u32, mode: Mode) {
    let (table, seats) = RangeTable::<FreeGuard>::open(alloc, 2, &[]).expect(rt, "memory");
    let (mut a, mut b) = both(&table, seats);
    try_behind(rt, &table, &mut a, &mut b, before, mode);
}

#[test]
fn a_used_node_waits_for_an_open_scan(rt: HostRuntime) {
    try_beside_a_scan(&rt, rt.alloc(), 0, Mode::Reader);
}

#[test]
fn sixteen_tries_at_an_empty_list_enter_no_epoch(rt: HostRuntime) {
    try_beside_a_scan(&rt, rt.alloc(), 16, Mode::Writer);
}
