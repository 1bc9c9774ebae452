//! Tries in a table of seven regions, beside which stands the list of wide ranges, worked by hand. A reader may rely on
//! two ranges being in conflict there exactly where they are in a table of one list, in whichever lists they stand.
ghost use Rattle.std.specs.Prelude.{◌≡◌, length, IsSome, None};
ghost use Rattle.list_cuts.specs.Cut.{list_count};
ghost use Rattle.range_rw.specs.Contract.{AreNewSeatsIn};

use crate::holds::{give, hold, refuse};
use list_cuts::Cut;
use lock_core::{FreeGuard, Mode, Range};
use range_rw::{NotHeld, RangeTable, Scan, Scanned, Seat};
use std::alloc::Global;
use std::process::Abort;

const BLOCK: u64 = 65_536;

/// The first block of the last region.
const LAST: u64 = 6 * BLOCK;

const READS: Mode = Mode::Reader;

const WRITES: Mode = Mode::Writer;

/// A range from its lower end up to its upper one, and how it is held.
type Held = (u64, u64, Mode);

/// The two seats of a new table of two, with any number of lists.
fn both_in(
    table: &RangeTable<FreeGuard>,
    mut seats: Vec<Seat<FreeGuard>>,
) -> (Seat<FreeGuard>, Seat<FreeGuard>)
    requires two { length seats.items ≡ 2 }
    requires new { AreNewSeatsIn (list_count table.now.cut) table.now.table (λ _. tt) seats.items }
    ensures first { (result.0.table ≡ table.now.table) × (result.0.held ≡ None) }
    ensures second { (result.1.table ≡ table.now.table) × (result.1.held ≡ None) }
{
    let first = seats.remove(0);
    let second = seats.remove(0);
    (first, second)
}

/// The three seats of a new table of three, with any number of lists.
fn three_in(
    table: &RangeTable<FreeGuard>,
    mut seats: Vec<Seat<FreeGuard>>,
) -> (Seat<FreeGuard>, Seat<FreeGuard>, Seat<FreeGuard>)
    requires three { length seats.items ≡ 3 }
    requires new { AreNewSeatsIn (list_count table.now.cut) table.now.table (λ _. tt) seats.items }
    ensures first { (result.0.table ≡ table.now.table) × (result.0.held ≡ None) }
    ensures second { (result.1.table ≡ table.now.table) × (result.1.held ≡ None) }
    ensures third { (result.2.table ≡ table.now.table) × (result.2.held ≡ None) }
{
    let first = seats.remove(0);
    let second = seats.remove(0);
    let third = seats.remove(0);
    (first, second, third)
}

/// One seat holds the first range, and another tries for the second: it holds it, or is told of the first.
fn try_both(
    rt: &impl Abort,
    table: &RangeTable<FreeGuard>,
    a: &mut Seat<FreeGuard>,
    b: &mut Seat<FreeGuard>,
    row: (Held, Held, bool),
)
    requires a { (a.old.table ≡ table.now.table) × (a.old.held ≡ None) }
    requires b { (b.old.table ≡ table.now.table) × (b.old.held ≡ None) }
{
    let ((lo, hi, mode), (from, to, other), held) = row;
    let range = Range::of(lo, hi).expect(rt, "a range");
    let behind = Range::of(from, to).expect(rt, "a range");
    hold(rt, table, a, range, mode);
    if held {
        hold(rt, table, b, behind, other);
        return;
    }
    let busy = NotHeld::Busy {
        owner: 0,
        range,
        mode,
    };
    refuse(rt, table, b, behind, other, busy);
}

/// The same in a new table of seven regions.
fn try_beside(rt: &impl Abort, alloc: Global, row: (Held, Held, bool)) {
    let cut = Cut::of(7, 16).expect(rt, "a cut");
    let (table, seats) = RangeTable::<FreeGuard>::open_cut(alloc, 2, cut, &[]).expect(rt, "memory");
    let (mut a, mut b) = both_in(&table, seats);
    try_both(rt, &table, &mut a, &mut b, row);
}

/// A refusal that names a writer's range.
fn busy(owner: u32, range: Range) -> NotHeld {
    NotHeld::Busy {
        owner,
        range,
        mode: WRITES,
    }
}

/// A wide seat and two narrow ones of one region, until each has held its range. The wide one is refused in the
/// region's list, twice, and leaves marked nodes in list 0, which narrow ones sweep away; then it holds all, and a
/// narrow one is refused in list 0.
fn meet_in_both(
    rt: &impl Abort,
    table: &RangeTable<FreeGuard>,
    wide: &mut Seat<FreeGuard>,
    near: &mut Seat<FreeGuard>,
    far: &mut Seat<FreeGuard>,
)
    requires wide { (wide.old.table ≡ table.now.table) × (wide.old.held ≡ None) }
    requires near { (near.old.table ≡ table.now.table) × (near.old.held ≡ None) }
    requires far { (far.old.table ≡ table.now.table) × (far.old.held ≡ None) }
{
    let all = Range::of(0, 2 * BLOCK).expect(rt, "a range");
    let first = Range::of(5, 6).expect(rt, "a range");
    let second = Range::of(7, 8).expect(rt, "a range");
    hold(rt, table, near, first, WRITES);
    refuse(rt, table, wide, all, WRITES, busy(1, first));
    hold(rt, table, far, second, WRITES);
    give(table, near);
    refuse(rt, table, wide, all, WRITES, busy(2, second));
    give(table, far);
    hold(rt, table, wide, all, WRITES);
    refuse(rt, table, near, first, WRITES, busy(0, all));
    give(table, wide);
    hold(rt, table, near, first, WRITES);
}

#[test]
fn a_wide_and_two_narrow_seats_meet_in_both_lists(rt: HostRuntime) {
    let cut = Cut::of(7, 16).expect(&rt, "a cut");
    let (table, seats) = RangeTable::<FreeGuard>::open_cut(rt.alloc(), 3, cut, &[]).expect(
        &rt, "memory",
    );
    let (mut wide, mut near, mut far) = three_in(&table, seats);
    meet_in_both(&rt, &table, &mut wide, &mut near, &mut far);
}

/// What a scan gives at a node of that seat.
fn found_at(rt: &impl Abort, owner: u32, held: Held) -> Scanned {
    let (lo, hi, mode) = held;
    let range = Range::of(lo, hi).expect(rt, "a range");
    Scanned::Found { owner, range, mode }
}

/// The scan's next answer. The scan stays open.
fn next_of<'a>(scan: &mut Scan<'a, FreeGuard>) -> Scanned
    requires table { scan.old.seat.now.table ≡ scan.old.table.now.table }
    requires free { scan.old.seat.now.held ≡ None }
    requires inside { IsSome scan.old.seat.now.scan }
    ensures same_reference { scan.new.seat.ghost_name ≡ scan.old.seat.ghost_name }
    ensures table { scan.new.seat.now.table ≡ scan.new.table.now.table }
    ensures free { scan.new.seat.now.held ≡ None }
    ensures inside { IsSome scan.new.seat.now.scan }
{
    scan.next()
}

/// What the first four calls of a scan give.
fn four_of(table: &RangeTable<FreeGuard>, seat: &mut Seat<FreeGuard>) -> [Scanned; 4]
    requires table { seat.old.table ≡ table.now.table }
    requires free { seat.old.held ≡ None }
{
    let mut scan = table.scan(seat);
    let one = next_of(&mut scan);
    let two = next_of(&mut scan);
    let three = next_of(&mut scan);
    let four = next_of(&mut scan);
    scan.end();
    [one, two, three, four]
}

/// Holds a range by a single try.
fn hold_row(rt: &impl Abort, table: &RangeTable<FreeGuard>, seat: &mut Seat<FreeGuard>, held: Held)
    requires table { seat.old.table ≡ table.now.table }
    requires free { seat.old.held ≡ None }
{
    let (lo, hi, mode) = held;
    let range = Range::of(lo, hi).expect(rt, "a range");
    hold(rt, table, seat, range, mode);
}

/// Two seats hold these ranges in a new table of seven regions, and a third seat scans: its first four answers.
fn scan_beside(rt: &impl Abort, alloc: Global, first: Held, second: Held) -> [Scanned; 4] {
    let cut = Cut::of(7, 16).expect(rt, "a cut");
    let (table, seats) = RangeTable::<FreeGuard>::open_cut(alloc, 3, cut, &[]).expect(rt, "memory");
    let (mut a, mut b, mut c) = three_in(&table, seats);
    hold_row(rt, &table, &mut a, first);
    hold_row(rt, &table, &mut b, second);
    four_of(&table, &mut c)
}

/// Two seats hold these ranges, of which the first stands in a list before that of the second or before it in one list,
/// and a third seat scans: it finds each once, and then the end, again and again.
fn scan_both(rt: &impl Abort, alloc: Global, row: (Held, Held)) {
    let (first, second) = row;
    let [one, two, three, four] = scan_beside(rt, alloc, first, second);
    assert_eq!(rt; one, found_at(rt, 0, first));
    assert_eq!(rt; two, found_at(rt, 1, second));
    assert_eq!(rt; three, Scanned::End);
    assert_eq!(rt; four, Scanned::End);
}

/// Ranges that two seats hold, in the order of the lists.
const SCANS: [(Held, Held); 9] = [
    // in one region, by their lower ends
    ((0, 10, WRITES), (20, 30, READS)),
    // in two regions, with no region, with one and with five between them
    ((0, 10, WRITES), (BLOCK, BLOCK + 10, WRITES)),
    ((0, 10, WRITES), (2 * BLOCK, 2 * BLOCK + 10, READS)),
    ((5, 6, READS), (LAST, LAST + 1, WRITES)),
    // the last region alone
    ((LAST, LAST + 1, READS), (LAST + 8, LAST + 9, WRITES)),
    // the eighth block stands in the first region again
    (
        (7 * BLOCK, 7 * BLOCK + 1, WRITES),
        (BLOCK, BLOCK + 1, WRITES),
    ),
    // a wide range stands in the list before all regions
    ((3 * BLOCK, 5 * BLOCK, WRITES), (0, 10, WRITES)),
    ((BLOCK, 2 * BLOCK + 1, READS), (LAST, LAST + 1, READS)),
    ((0, 2 * BLOCK, READS), (BLOCK, 3 * BLOCK, READS)),
];

#[test]
fn a_scan_finds_each_held_range_once_in_whichever_list(rt: HostRuntime) {
    for row in SCANS {
        scan_both(&rt, rt.alloc(), row);
    }
}

/// A range that is held, one that is tried for beside it, and whether that is held too.
const TRIES: [(Held, Held, bool); 14] = [
    // in one region; in two
    ((0, 10, WRITES), (5, 6, WRITES), false),
    ((0, 10, WRITES), (10, 20, WRITES), true),
    ((0, 10, WRITES), (BLOCK, BLOCK + 10, WRITES), true),
    ((0, 10, READS), (5, 6, READS), true),
    // a wide range first, and then a narrow one: inside it, and beside it in a region that it takes
    ((0, 2 * BLOCK, WRITES), (5, 6, READS), false),
    ((0, 2 * BLOCK, READS), (5, 6, WRITES), false),
    ((0, 2 * BLOCK, READS), (5, 6, READS), true),
    ((10, 2 * BLOCK, WRITES), (5, 6, WRITES), true),
    // a narrow one first
    ((5, 6, READS), (0, 2 * BLOCK, WRITES), false),
    ((5, 6, WRITES), (0, 2 * BLOCK, READS), false),
    ((5, 6, READS), (0, 2 * BLOCK, READS), true),
    ((5, 6, WRITES), (10, 2 * BLOCK, WRITES), true),
    // two wide ones
    ((0, 2 * BLOCK, WRITES), (BLOCK, 3 * BLOCK, READS), false),
    ((0, 2 * BLOCK, WRITES), (3 * BLOCK, 5 * BLOCK, WRITES), true),
];

#[test]
fn ranges_conflict_as_in_one_list(rt: HostRuntime) {
    for row in TRIES {
        try_beside(&rt, rt.alloc(), row);
    }
}
