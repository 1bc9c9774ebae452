//! Sets worked by hand, on one thread: what is expected was reckoned by hand, and never taken from the program.
//! `move_page` is the example of `docs/guide/rust.md`.
ghost use Rattle.std.specs.Prelude.{◌≡◌, ◌<◌, ◌≤◌, ◌∷◌, ◌++◌, All, IfSome, None, OnErr, OnOk, ℕ, false, length, map, slice_get, true};
ghost use Rattle.std.specs.Bool.{OnTrue};
ghost use Rattle.range_rw.specs.Contract.{AreIdleSeats, IsGivenBack, IsLockCall, pass_in};
ghost use Rattle.range_sets.specs.Wants.{NoClash};
ghost use Rattle.range_sets.specs.Sets.{AllFree, AllRest, AreHeld, EachIs, IsLetGo, passes_after};

use lock_core::{FreeGuard, Guard, Mode, Range};
use range_rw::{NotHeld, RangeTable, Seat};
use range_sets::{SetRefused, SetSeat, Want, clash, release_set, try_set};
use std::alloc::Global;
use std::marker::Brand;
use std::process::Abort;
use std::sync::atomic::{AtomicU64, Ordering};
use std::sync::ledger::{Blank, Ledger};
use word_rows::Steps;

/// A guard whose passes tell whether their seats have yet to give a range back.
struct Untouched;

impl Guard for Untouched {
    type Pass = bool;

    type Note = ();

    ghost first = { λ _ _. true };

    ghost holds = { λ _ _ _. Unit {0} };

    ghost allows = { λ _ _ _ _ _ _ _. Unit {0} };

    ghost rested = { λ _. false };

    ghost is_at_rest = { λ _. Unit {0} };

    ghost keeps = { λ _ _ _ _ _ _ _ _ _. tt };

    ghost gains = { λ _ _ _ _ _ _ _ _. tt };

    ghost loses = { λ _ _ _ _ _ _ _ _. tt };

    ghost stays_at_rest = { λ _ _. tt };
}

/// The seat of the lowest number of these, which are of one table and hold nothing.
fn next_seat<G: Guard>(rt: &impl Abort, table: &RangeTable<G>, seats: &mut Vec<Seat<G>>) -> Seat<G>
    requires idle { All (λ s. (s.table ≡ table.now.table) × (s.held ≡ None)) seats.old.items }
    ensures idle { All (λ s. (s.table ≡ table.now.table) × (s.held ≡ None)) seats.new.items }
    ensures seat { (result.table ≡ table.now.table) × (result.held ≡ None) }
    ensures first { seats.old.items ≡ result ∷ seats.new.items }
{
    assert!(rt; !seats.is_empty());
    seats.remove(0)
}

/// The four seats of the lowest numbers, as a set.
fn next_set<G: Guard>(
    rt: &impl Abort,
    table: &RangeTable<G>,
    seats: &mut Vec<Seat<G>>,
) -> SetSeat<G>
    requires idle { All (λ s. (s.table ≡ table.now.table) × (s.held ≡ None)) seats.old.items }
    ensures idle { All (λ s. (s.table ≡ table.now.table) × (s.held ≡ None)) seats.new.items }
    ensures table { result.table ≡ table.now.table }
    ensures free { AllFree result.seats }
    ensures first { seats.old.items ≡ result.seats ++ seats.new.items }
{
    let a = next_seat(rt, table, seats);
    let b = next_seat(rt, table, seats);
    let c = next_seat(rt, table, seats);
    let d = next_seat(rt, table, seats);
    SetSeat::new(a, b, c, d)
}

/// A table of eight seats, the set of its seats 0 to 3 and the set of its seats 4 to 7.
fn open_two(
    rt: &impl Abort,
    alloc: Global,
) -> (
    RangeTable<FreeGuard>,
    SetSeat<FreeGuard>,
    SetSeat<FreeGuard>,
)
    ensures tables { (result.1.table ≡ result.0.table) × (result.2.table ≡ result.0.table) }
    ensures free { AllFree result.1.seats × AllFree result.2.seats }
    ensures all { (result.0.seats ≡ 8) × AreIdleSeats result.0.table (result.1.seats ++ result.2.seats) }
{
    let Ok((table, mut seats)) = RangeTable::<FreeGuard>::open(alloc, 8, &[]) else {
        panic!(rt; "memory");
    };
    let p = next_set(rt, &table, &mut seats);
    let q = next_set(rt, &table, &mut seats);
    (table, p, q)
}

/// A table of five seats under the guard that tells which have given a range back, its seat 0, and the set of the
/// others.
fn open_untouched(
    rt: &impl Abort,
    alloc: Global,
) -> (RangeTable<Untouched>, Seat<Untouched>, SetSeat<Untouched>)
    ensures seat { (result.1.table ≡ result.0.table) × (result.1.held ≡ None) }
    ensures table { result.2.table ≡ result.0.table }
    ensures free { AllFree result.2.seats }
{
    let Ok((table, mut seats)) = RangeTable::<Untouched>::open(alloc, 5, &[]) else {
        panic!(rt; "memory");
    };
    let seat = next_seat(rt, &table, &mut seats);
    let set = next_set(rt, &table, &mut seats);
    (table, seat, set)
}

/// Tries to hold all of these wants, with a counter made of that blank.
fn try_counting<L: Ledger>(
    table: &RangeTable<FreeGuard>,
    set: &mut SetSeat<FreeGuard>,
    wants: &[Want],
    blank: Blank,
) -> Result<(), SetRefused>
    requires blank { (blank.name ≡ L.name) × (blank.parts ≡ L.parts) × (0 < L.parts) }
    requires table { set.old.table ≡ table.now.table }
    requires count { (0 < length wants.now) × (length wants.now ≤ 4) }
    requires apart { NoClash wants.now }
    requires free { AllFree set.old.seats }
    ensures table { set.new.table ≡ set.old.table }
    ensures held { OnOk result (AreHeld wants.now set.new.seats) }
    ensures calls { OnOk result (EachIs IsLockCall set.old.seats set.new.seats) }
    ensures some { OnOk result (¬ (AllFree set.new.seats)) }
    ensures free { OnErr result (AllFree set.new.seats) }
    ensures let_go { OnErr result (EachIs IsLetGo set.old.seats set.new.seats) }
{
    let mut steps = Steps::<L>::new(blank);
    try_set(table, set, wants, &mut steps)
}

/// Tries to hold all of these wants.
fn try_all(
    table: &RangeTable<FreeGuard>,
    set: &mut SetSeat<FreeGuard>,
    wants: &[Want],
) -> Result<(), SetRefused>
    requires table { set.old.table ≡ table.now.table }
    requires count { (0 < length wants.now) × (length wants.now ≤ 4) }
    requires apart { NoClash wants.now }
    requires free { AllFree set.old.seats }
    ensures table { set.new.table ≡ set.old.table }
    ensures held { OnOk result (AreHeld wants.now set.new.seats) }
    ensures calls { OnOk result (EachIs IsLockCall set.old.seats set.new.seats) }
    ensures some { OnOk result (¬ (AllFree set.new.seats)) }
    ensures free { OnErr result (AllFree set.new.seats) }
    ensures let_go { OnErr result (EachIs IsLetGo set.old.seats set.new.seats) }
{
    try_counting::<Brand>(table, set, wants, Blank::new(1))
}

/// Tries to hold all of these wants, with a counter made of that blank: the place of the want that was refused.
fn refused_counting<G: Guard, L: Ledger>(
    table: &RangeTable<G>,
    set: &mut SetSeat<G>,
    wants: &[Want],
    blank: Blank,
) -> Option<u32>
    requires blank { (blank.name ≡ L.name) × (blank.parts ≡ L.parts) × (0 < L.parts) }
    requires table { set.old.table ≡ table.now.table }
    requires count { (0 < length wants.now) × (length wants.now ≤ 4) }
    requires apart { NoClash wants.now }
    requires free { AllFree set.old.seats }
    requires rest { AllRest G.is_at_rest set.old.seats }
    ensures behind { IfSome result (λ i. (k : ℕ) → i < k → slice_get set.new.seats k ≡ slice_get set.old.seats k) }
    ensures passes { IfSome result (λ i. map pass_in set.new.seats ≡ passes_after G.rested i set.old.seats) }
{
    let mut steps = Steps::<L>::new(blank);
    match try_set(table, set, wants, &mut steps) {
        Ok(()) => None,
        Err(refused) => Some(refused.index),
    }
}

/// Tries to hold all of these wants: the place of the want that was refused. The passes are at rest.
fn refused_place<G: Guard>(
    table: &RangeTable<G>,
    set: &mut SetSeat<G>,
    wants: &[Want],
) -> Option<u32>
    requires table { set.old.table ≡ table.now.table }
    requires count { (0 < length wants.now) × (length wants.now ≤ 4) }
    requires apart { NoClash wants.now }
    requires free { AllFree set.old.seats }
    requires rest { AllRest G.is_at_rest set.old.seats }
    ensures behind { IfSome result (λ i. (k : ℕ) → i < k → slice_get set.new.seats k ≡ slice_get set.old.seats k) }
    ensures passes { IfSome result (λ i. map pass_in set.new.seats ≡ passes_after G.rested i set.old.seats) }
{
    refused_counting::<G, Brand>(table, set, wants, Blank::new(1))
}

/// Tries to hold all of these wants: whether the first was refused. The seats behind it are then as they were, with the
/// steps that they had made.
fn first_is_refused(
    table: &RangeTable<FreeGuard>,
    set: &mut SetSeat<FreeGuard>,
    wants: &[Want],
) -> bool
    requires table { set.old.table ≡ table.now.table }
    requires count { (0 < length wants.now) × (length wants.now ≤ 4) }
    requires apart { NoClash wants.now }
    requires free { AllFree set.old.seats }
    ensures behind { OnTrue result ((k : ℕ) → 0 < k → slice_get set.new.seats k ≡ slice_get set.old.seats k) }
{
    match refused_place(table, set, wants) {
        None => false,
        Some(index) => index == 0,
    }
}

/// Tries to hold all of these wants: whether the third was refused. The passes of the first two seats are then rested,
/// and the others are as they were.
fn third_is_refused(
    table: &RangeTable<Untouched>,
    set: &mut SetSeat<Untouched>,
    wants: &[Want],
) -> bool
    requires table { set.old.table ≡ table.now.table }
    requires count { (0 < length wants.now) × (length wants.now ≤ 4) }
    requires apart { NoClash wants.now }
    requires free { AllFree set.old.seats }
    ensures passes { OnTrue result (map pass_in set.new.seats ≡ passes_after (λ _. false) 2 set.old.seats) }
{
    match refused_place(table, set, wants) {
        None => false,
        Some(index) => index == 2,
    }
}

/// Moves the number of one page to another, and leaves 0 behind, with both pages held as a writer. False says that
/// nothing was moved: both are one page, or another seat is in the way.
fn move_page(
    table: &RangeTable<FreeGuard>,
    set: &mut SetSeat<FreeGuard>,
    pages: &[AtomicU64],
    from: u32,
    to: u32,
) -> bool
    requires table { set.old.table ≡ table.now.table }
    requires pages { (from < length pages.now) × (to < length pages.now) }
    requires free { AllFree set.old.seats }
    ensures table { set.new.table ≡ set.old.table }
    ensures free { AllFree set.new.seats }
{
    let (Ok(source), Ok(target)) = (
        Range::of(from as u64, from as u64 + 1),
        Range::of(to as u64, to as u64 + 1),
    ) else {
        unreachable!()
    };
    let wants = [
        Want {
            range: source,
            mode: Mode::Writer,
        },
        Want {
            range: target,
            mode: Mode::Writer,
        },
    ];
    if clash(&wants).is_some() {
        return false;
    }
    if try_all(table, set, &wants).is_err() {
        return false;
    }
    let number = pages[from as usize].swap(0, Ordering::SeqCst);
    pages[to as usize].store(number, Ordering::SeqCst);
    release_set(table, set);
    true
}

fn want(rt: &impl Abort, lo: u64, hi: u64, mode: Mode) -> Want {
    let range = Range::of(lo, hi).expect(rt, "a range");
    Want { range, mode }
}

/// Which places of a set hold something.
fn holding(set: &SetSeat<FreeGuard>) -> [bool; 4] {
    [
        set.held_of(0).is_some(),
        set.held_of(1).is_some(),
        set.held_of(2).is_some(),
        set.held_of(3).is_some(),
    ]
}

/// Holds all of these wants, which nobody is in the way of.
fn hold(
    rt: &impl Abort,
    table: &RangeTable<FreeGuard>,
    set: &mut SetSeat<FreeGuard>,
    wants: &[Want],
)
    requires table { set.old.table ≡ table.now.table }
    requires free { AllFree set.old.seats }
    ensures table { set.new.table ≡ set.old.table }
    ensures calls { EachIs IsLockCall set.old.seats set.new.seats }
    ensures some { ¬ (AllFree set.new.seats) }
{
    assert!(rt; !wants.is_empty() && wants.len() <= 4);
    assert!(rt; clash(wants).is_none());
    assert!(rt; try_all(table, set, wants).is_ok());
}

/// Tries to hold all of these wants, and is refused so.
fn meet(
    rt: &impl Abort,
    table: &RangeTable<FreeGuard>,
    set: &mut SetSeat<FreeGuard>,
    wants: &[Want],
    expected: SetRefused,
)
    requires table { set.old.table ≡ table.now.table }
    requires free { AllFree set.old.seats }
    ensures table { set.new.table ≡ set.old.table }
    ensures free { AllFree set.new.seats }
    ensures let_go { EachIs IsLetGo set.old.seats set.new.seats }
{
    assert!(rt; !wants.is_empty() && wants.len() <= 4);
    assert!(rt; clash(wants).is_none());
    match try_all(table, set, wants) {
        Ok(()) => panic!(rt; "both hold a writer's range"),
        Err(refused) => assert_eq!(rt; refused, expected),
    }
}

/// The refusal of a want at that place by the seat of that number, which holds that range as a writer.
fn busy(rt: &impl Abort, index: u32, owner: u32, lo: u64, hi: u64) -> SetRefused {
    let range = Range::of(lo, hi).expect(rt, "a range");
    let why = NotHeld::Busy {
        owner,
        range,
        mode: Mode::Writer,
    };
    SetRefused { index, why }
}

/// One set holds two ranges, the first with its seat of number 3; another is refused its second, and then granted its
/// first alone.
fn refuse_the_second(
    rt: &impl Abort,
    table: &RangeTable<FreeGuard>,
    p: &mut SetSeat<FreeGuard>,
    q: &mut SetSeat<FreeGuard>,
)
    requires tables { (p.old.table ≡ table.now.table) × (q.old.table ≡ table.now.table) }
    requires free { AllFree p.old.seats × AllFree q.old.seats }
{
    let mine = [want(rt, 0, 2, Mode::Writer), want(rt, 4, 6, Mode::Reader)];
    let others = [want(rt, 4, 5, Mode::Reader), want(rt, 1, 3, Mode::Writer)];
    hold(rt, table, p, &mine);
    meet(rt, table, q, &others, busy(rt, 1, 3, 0, 2));
    assert_eq!(rt; q.held_of(0), None);
    hold(rt, table, q, &[want(rt, 4, 5, Mode::Reader)]);
    assert_eq!(rt; q.held_of(0), Some(want(rt, 4, 5, Mode::Reader)));
    assert_eq!(rt; p.held_of(1), Some(want(rt, 4, 6, Mode::Reader)));
}

/// One set holds a range with its first seat, which is that of number 3; another is refused the third of four wants,
/// granted the first two meanwhile, and granted all four once that range is given back.
fn refuse_the_third(
    rt: &impl Abort,
    table: &RangeTable<FreeGuard>,
    p: &mut SetSeat<FreeGuard>,
    q: &mut SetSeat<FreeGuard>,
)
    requires tables { (p.old.table ≡ table.now.table) × (q.old.table ≡ table.now.table) }
    requires free { AllFree p.old.seats × AllFree q.old.seats }
{
    let four = [
        want(rt, 10, 11, Mode::Reader),
        want(rt, 20, 21, Mode::Reader),
        want(rt, 0, 1, Mode::Writer),
        want(rt, 30, 31, Mode::Writer),
    ];
    hold(rt, table, p, &[want(rt, 0, 1, Mode::Writer)]);
    meet(rt, table, q, &four, busy(rt, 2, 3, 0, 1));
    assert_eq!(rt; holding(q), [false; 4]);
    hold(rt, table, q, &[four[0], four[1]]);
    assert_eq!(rt; holding(q), [true, true, false, false]);
    release_set(table, q);
    release_set(table, p);
    assert_eq!(rt; holding(p), [false; 4]);
    hold(rt, table, q, &four);
    assert_eq!(rt; holding(q), [true; 4]);
}

/// A set holds four ranges, of which two are readers' and overlap, and gives them back.
fn hold_four(rt: &impl Abort, table: &RangeTable<FreeGuard>, set: &mut SetSeat<FreeGuard>)
    requires table { set.old.table ≡ table.now.table }
    requires free { AllFree set.old.seats }
    ensures table { set.new.table ≡ set.old.table }
    ensures free { AllFree set.new.seats }
{
    let four = [
        want(rt, 0, 1, Mode::Writer),
        want(rt, 2, 4, Mode::Reader),
        want(rt, 3, 5, Mode::Reader),
        want(rt, 9, 10, Mode::Writer),
    ];
    hold(rt, table, set, &four);
    assert_eq!(rt; set.held_of(0), Some(four[0]));
    assert_eq!(rt; set.held_of(1), Some(four[1]));
    assert_eq!(rt; set.held_of(2), Some(four[2]));
    assert_eq!(rt; set.held_of(3), Some(four[3]));
    release_set(table, set);
    assert_eq!(rt; holding(set), [false; 4]);
}

/// One set holds a range and gives it back; another is refused it meanwhile. Then no seat holds anything.
fn refuse_meanwhile(
    rt: &impl Abort,
    table: &RangeTable<FreeGuard>,
    p: &mut SetSeat<FreeGuard>,
    q: &mut SetSeat<FreeGuard>,
)
    requires tables { (p.old.table ≡ table.now.table) × (q.old.table ≡ table.now.table) }
    requires free { AllFree p.old.seats × AllFree q.old.seats }
    ensures free { AllFree p.new.seats × AllFree q.new.seats }
    ensures back { EachIs IsGivenBack p.old.seats p.new.seats × EachIs IsGivenBack q.old.seats q.new.seats }
{
    let one = [want(rt, 0, 1, Mode::Writer)];
    hold(rt, table, p, &one);
    meet(rt, table, q, &one, busy(rt, 0, 0, 0, 1));
    release_set(table, p);
}

/// Closes a table of eight seats with those of both sets, in order. Gives the number of its client words; None where
/// there was no memory.
fn close_both(
    alloc: Global,
    table: RangeTable<FreeGuard>,
    p: SetSeat<FreeGuard>,
    q: SetSeat<FreeGuard>,
) -> Option<usize>
    requires free { AllFree p.seats × AllFree q.seats }
    requires all { (table.seats ≡ 8) × AreIdleSeats table.table (p.seats ++ q.seats) }
{
    let (a, b, c, d) = p.into_seats();
    let (e, f, g, h) = q.into_seats();
    let Ok(seats) = Vec::from_array(alloc, [a, b, c, d, e, f, g, h]) else {
        return None;
    };
    let Ok(words) = table.close(alloc, seats) else {
        return None;
    };
    Some(words.len())
}

/// Fails the test where two of the wants conflict.
fn stand_apart(rt: &impl Abort, wants: &[Want])
    requires count { length wants.now ≤ 4 }
    ensures apart { NoClash wants.now }
{
    assert!(rt; clash(wants).is_none());
}

/// One set holds a range; another is refused the first of three wants.
fn refuse_the_first(
    rt: &impl Abort,
    table: &RangeTable<FreeGuard>,
    p: &mut SetSeat<FreeGuard>,
    q: &mut SetSeat<FreeGuard>,
)
    requires tables { (p.old.table ≡ table.now.table) × (q.old.table ≡ table.now.table) }
    requires free { AllFree p.old.seats × AllFree q.old.seats }
{
    let wants = [
        want(rt, 1, 2, Mode::Reader),
        want(rt, 2, 3, Mode::Reader),
        want(rt, 4, 5, Mode::Writer),
    ];
    hold(rt, table, p, &[want(rt, 0, 2, Mode::Writer)]);
    stand_apart(rt, &wants);
    assert!(rt; first_is_refused(table, q, &wants));
    assert_eq!(rt; holding(q), [false; 4]);
}

/// A seat holds a range, under the guard that tells which seats have given one back; a set is refused the third of four
/// wants.
fn refuse_under_the_guard(
    rt: &impl Abort,
    table: &RangeTable<Untouched>,
    seat: &mut Seat<Untouched>,
    set: &mut SetSeat<Untouched>,
)
    requires seat { (seat.old.table ≡ table.now.table) × (seat.old.held ≡ None) }
    requires table { set.old.table ≡ table.now.table }
    requires free { AllFree set.old.seats }
{
    let range = Range::of(0, 1).expect(rt, "a range");
    let wants = [
        want(rt, 10, 11, Mode::Reader),
        want(rt, 20, 21, Mode::Reader),
        want(rt, 0, 1, Mode::Writer),
        want(rt, 30, 31, Mode::Writer),
    ];
    assert!(rt;
        table
            .try_acquire_uncounted(seat, range, Mode::Writer)
            .is_ok()
    );
    stand_apart(rt, &wants);
    assert!(rt; third_is_refused(table, set, &wants));
}

/// One set moves a page, once another doesn't hold the place that it goes to.
fn move_twice(
    rt: &impl Abort,
    table: &RangeTable<FreeGuard>,
    p: &mut SetSeat<FreeGuard>,
    q: &mut SetSeat<FreeGuard>,
)
    requires tables { (p.old.table ≡ table.now.table) × (q.old.table ≡ table.now.table) }
    requires free { AllFree p.old.seats × AllFree q.old.seats }
{
    let pages = [AtomicU64::new(7), AtomicU64::new(8), AtomicU64::new(9)];
    assert!(rt; move_page(table, p, &pages, 0, 1));
    assert!(rt; !move_page(table, p, &pages, 1, 1));
    hold(rt, table, q, &[want(rt, 2, 3, Mode::Reader)]);
    assert!(rt; !move_page(table, p, &pages, 1, 2));
    assert_eq!(rt; pages[1].load(Ordering::SeqCst), 7);
    release_set(table, q);
    assert!(rt; move_page(table, p, &pages, 1, 2));
    assert_eq!(rt; pages[2].load(Ordering::SeqCst), 7);
}

/// The same seats in the other order.
fn turned(set: SetSeat<FreeGuard>) -> SetSeat<FreeGuard>
    requires free { AllFree set.seats }
    ensures table { result.table ≡ set.table }
    ensures free { AllFree result.seats }
{
    let (a, b, c, d) = set.into_seats();
    SetSeat::new(d, c, b, a)
}

/// What is played on two sets of one table.
enum Case {
    Second,
    Third,
    First,
    Page,
}

/// Plays a case on two sets that hold nothing.
fn play(
    rt: &impl Abort,
    table: &RangeTable<FreeGuard>,
    p: &mut SetSeat<FreeGuard>,
    q: &mut SetSeat<FreeGuard>,
    case: Case,
)
    requires tables { (p.old.table ≡ table.now.table) × (q.old.table ≡ table.now.table) }
    requires free { AllFree p.old.seats × AllFree q.old.seats }
{
    match case {
        Case::Second => {
            hold_four(rt, table, p);
            refuse_the_second(rt, table, p, q);
        }
        Case::Third => refuse_the_third(rt, table, p, q),
        Case::First => refuse_the_first(rt, table, p, q),
        Case::Page => move_twice(rt, table, p, q),
    }
}

/// Plays a case on the two sets of a new table. The first has its seats in the other order, so that a seat's number
/// isn't its place in the set.
fn play_on_two(rt: &impl Abort, alloc: Global, case: Case) {
    let (table, p, mut q) = open_two(rt, alloc);
    let mut p = turned(p);
    play(rt, &table, &mut p, &mut q, case);
    drop(p);
    drop(q);
    drop(table);
}

#[test]
fn two_sets_answer_as_worked_by_hand(rt: HostRuntime) {
    play_on_two(&rt, rt.alloc(), Case::Second);
}

#[test]
fn a_refused_set_holds_nothing(rt: HostRuntime) {
    play_on_two(&rt, rt.alloc(), Case::Third);
}

#[test]
fn seats_behind_a_refusal_make_no_step(rt: HostRuntime) {
    play_on_two(&rt, rt.alloc(), Case::First);
}

#[test]
fn a_page_is_moved_while_both_are_held(rt: HostRuntime) {
    play_on_two(&rt, rt.alloc(), Case::Page);
}

#[test]
fn a_table_closes_with_the_seats_of_both_sets(rt: HostRuntime) {
    let (table, mut p, mut q) = open_two(&rt, rt.alloc());
    refuse_meanwhile(&rt, &table, &mut p, &mut q);
    assert_eq!(rt; close_both(rt.alloc(), table, p, q), Some(0));
}

#[test]
fn passes_before_a_refusal_are_rested(rt: HostRuntime) {
    let (table, mut seat, mut set) = open_untouched(&rt, rt.alloc());
    refuse_under_the_guard(&rt, &table, &mut seat, &mut set);
    drop(seat);
    drop(set);
    drop(table);
}

/// A range from its lower end up to its upper one, and how it is wanted.
type Wanted = (u64, u64, Mode);

const READS: Mode = Mode::Reader;

const WRITES: Mode = Mode::Writer;

/// What stands behind the wants of a row.
const NO: Wanted = (0, 1, READS);

/// How many wants, the wants, and the first two that clash.
const CLASHES: [(usize, [Wanted; 4], Option<(u32, u32)>); 6] = [
    (0, [NO, NO, NO, NO], None),
    (2, [(0, 2, WRITES), (1, 4, READS), NO, NO], Some((0, 1))),
    (2, [(0, 2, WRITES), (2, 4, WRITES), NO, NO], None),
    (
        3,
        [(0, 4, READS), (1, 2, READS), (3, 5, WRITES), NO],
        Some((0, 2)),
    ),
    (
        3,
        [(5, 6, WRITES), (0, 3, READS), (2, 4, WRITES), NO],
        Some((1, 2)),
    ),
    (
        4,
        [
            (0, 10, WRITES),
            (20, 21, READS),
            (5, 6, READS),
            (7, 8, READS),
        ],
        Some((0, 2)),
    ),
];

/// The first wants of a row clash as it says.
fn clash_so(rt: &impl Abort, row: (usize, [Wanted; 4], Option<(u32, u32)>)) {
    let (count, [a, b, c, d], expected) = row;
    let wants = [
        want(rt, a.0, a.1, a.2),
        want(rt, b.0, b.1, b.2),
        want(rt, c.0, c.1, c.2),
        want(rt, d.0, d.1, d.2),
    ];
    assert!(rt; count <= 4);
    assert_eq!(rt; clash(&wants[..count]), expected);
}

#[test]
fn the_first_clash_is_told(rt: HostRuntime) {
    for row in CLASHES {
        clash_so(&rt, row);
    }
}
