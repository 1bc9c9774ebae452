//! Touches worked by hand, by two seats of one thread, and by four threads at once. What is expected was reckoned by
//! hand, and never taken from the program.
ghost use Rattle.std.specs.Prelude.{◌≡◌, ◌+◌, ◌≤◌, All, IfSome, length, sum_by, vec_capacity, vec_len};
ghost use Rattle.page_touch.specs.Touches.{seat_quota};

use page_touch::{TouchFault, TouchSeat, Touched, Touches};
use page_types::LIMIT;
use std::alloc::Global;
use std::process::Abort;
use std::sync::Wait;
use std::sync::atomic::{AtomicU64, Ordering};
use std::test::Fail;
use std::thread;
use std::thread::Threads;

/// A set for two seats with these quotas, and the seats.
fn open_two(alloc: Global, one: u32, other: u32) -> Option<(Touches, TouchSeat, TouchSeat)>
    ensures tables { IfSome result (λ r. (r.1.table ≡ r.0.table) × (r.2.table ≡ r.0.table)) }
    ensures total { IfSome result (λ r. r.1.quota + r.2.quota ≡ r.0.total) }
{
    let Ok((touches, mut seats)) = Touches::open(alloc, &[one, other]) else {
        return None;
    };
    let second = seats.remove(1);
    let first = seats.remove(0);
    Some((touches, first, second))
}

/// The pages of the set of these two seats.
fn close_two(alloc: Global, touches: Touches, one: TouchSeat, other: TouchSeat) -> Option<Vec<u64>>
    requires tables { (one.table ≡ touches.table) × (other.table ≡ touches.table) }
    requires total { one.quota + other.quota ≡ touches.total }
{
    let Ok(mut back) = Vec::with_capacity(alloc, 2) else {
        return None;
    };
    back.push_reserved(one);
    back.push_reserved(other);
    match touches.close(alloc, back) {
        Ok(pages) => Some(pages),
        Err(_) => None,
    }
}

/// A seat touches a page, if it may.
fn touch_if_left(touches: &Touches, seat: &mut TouchSeat, page: u64) -> Option<Touched>
    requires { seat.old.table ≡ touches.now.table }
    ensures table { seat.new.table ≡ seat.old.table }
    ensures quota { seat.new.quota ≡ seat.old.quota }
{
    if page >= LIMIT || seat.left() == 0 {
        return None;
    }
    Some(touches.touch_uncounted(seat, page))
}

/// The two seats make these turns, each by the seat 0 or 1 at a page. The answers go to a list with room for them.
fn take_turns(
    touches: &Touches,
    one: &mut TouchSeat,
    other: &mut TouchSeat,
    turns: &[(u32, u64)],
    answers: &mut Vec<Option<Touched>>,
)
    requires tables { (one.old.table ≡ touches.now.table) × (other.old.table ≡ touches.now.table) }
    requires room { vec_len answers.old + length turns.now ≤ vec_capacity answers.old }
    ensures tables { (one.new.table ≡ one.old.table) × (other.new.table ≡ other.old.table) }
    ensures quotas { (one.new.quota ≡ one.old.quota) × (other.new.quota ≡ other.old.quota) }
{
    'turns: for turn in turns {
        let (seat, page) = *turn;
        let answer = if seat == 0 {
            touch_if_left(touches, one, page)
        } else {
            touch_if_left(touches, other, page)
        };
        answers.push_reserved(answer);
    }
}

/// What a play of turns showed: the answers, how many touches each seat has left, and the pages of the closing.
#[derive(Drop)]
struct Played {
    answers: Vec<Option<Touched>>,
    left: (u32, u32),
    pages: Vec<u64>,
}

/// Plays these turns on a set for two seats. Turned, the seats are given back in the other order. None: out of memory.
fn play(alloc: Global, quotas: (u32, u32), turns: &[(u32, u64)], turned: bool) -> Option<Played> {
    let Ok(mut answers) = Vec::with_capacity(alloc, turns.len()) else {
        return None;
    };
    let (touches, mut one, mut other) = open_two(alloc, quotas.0, quotas.1)?;
    take_turns(&touches, &mut one, &mut other, turns, &mut answers);
    let left = (one.left(), other.left());
    let pages = if turned {
        close_two(alloc, touches, other, one)
    } else {
        close_two(alloc, touches, one, other)
    };
    let Some(pages) = pages else {
        return None;
    };
    Some(Played {
        answers,
        left,
        pages,
    })
}

/// The turns have these answers, and the rest is as said, in whichever order the seats are given back.
fn shows<R: Abort>(
    rt: &R,
    alloc: Global,
    quotas: (u32, u32),
    turns: &[(u32, u64)],
    answers: &[Option<Touched>],
    left: (u32, u32),
    pages: &[u64],
) {
    for turned in [false, true] {
        let Some(played) = play(alloc, quotas, turns, turned) else {
            panic!(rt; "memory")
        };
        assert_eq!(rt; played.answers.as_slice(), answers);
        assert_eq!(rt; played.left, left);
        assert_eq!(rt; played.pages.as_slice(), pages);
    }
}

fn first(place: u32) -> Option<Touched> {
    Some(Touched::First { place })
}

fn seen(place: u32) -> Option<Touched> {
    Some(Touched::Seen { place })
}

#[test]
fn touches_answer_as_worked_by_hand(rt: HostRuntime) {
    let alloc = rt.alloc();
    shows(&rt, alloc, (0, 0), &[(0, 1)], &[None], (0, 0), &[]);
    shows(
        &rt,
        alloc,
        (3, 0),
        &[(0, 7), (0, 14), (0, 21), (0, 28)],
        &[first(0), first(1), first(2), None],
        (0, 0),
        &[7, 14, 21],
    );
    shows(
        &rt,
        alloc,
        (3, 0),
        &[(0, 6), (0, 13), (0, 20)],
        &[first(6), first(0), first(1)],
        (0, 0),
        &[6, 13, 20],
    );
    shows(
        &rt,
        alloc,
        (2, 2),
        &[(0, 1), (1, 10), (0, 10)],
        &[first(1), first(2), seen(2)],
        (0, 1),
        &[1, 10],
    );
    shows(
        &rt,
        alloc,
        (1, 1),
        &[(0, 5), (1, 5)],
        &[first(0), seen(0)],
        (0, 0),
        &[5],
    );
    shows(
        &rt,
        alloc,
        (0, 2),
        &[(1, 7), (1, 7)],
        &[first(2), seen(2)],
        (0, 0),
        &[7],
    );
    shows(
        &rt,
        alloc,
        (2, 0),
        &[(0, LIMIT - 1), (0, 0)],
        &[first(4), first(0)],
        (0, 0),
        &[0, LIMIT - 1],
    );
    shows(
        &rt,
        alloc,
        (2, 0),
        &[(0, 4), (0, 9)],
        &[first(4), first(0)],
        (0, 0),
        &[4, 9],
    );
}

#[test]
fn a_set_opens_for_1_to_16_seats_and_a_million_pages(rt: HostRuntime) {
    let alloc = rt.alloc();
    let most = u32::MAX;
    assert!(rt; matches!(Touches::open(alloc, &[]), Err(TouchFault::Seats(0))));
    assert!(rt;
        matches!(
            Touches::open(alloc, &[most; 17]),
            Err(TouchFault::Seats(17))
        )
    );
    assert!(rt;
        matches!(
            Touches::open(alloc, &[most; 16]),
            Err(TouchFault::Room(68_719_476_720))
        )
    );
    assert!(rt;
        matches!(
            Touches::open(alloc, &[1_048_576, 1]),
            Err(TouchFault::Room(1_048_577))
        )
    );
    assert!(rt; matches!(Touches::open(alloc, &[1_048_576]), Ok(_)));
    assert!(rt; matches!(Touches::open(alloc, &[0]), Ok(_)));
}

/// A seat touches the pages from 0 on, one for each of these counters, and counts its First answers there.
fn touch_each(touches: &Touches, seat: &mut TouchSeat, firsts: &[AtomicU64])
    requires table { seat.old.table ≡ touches.now.table }
    requires left { length seat.old.touched + length firsts.now ≤ seat.old.quota }
    requires few { length firsts.now ≤ 1000 }
    ensures table { seat.new.table ≡ seat.old.table }
    ensures quota { seat.new.quota ≡ seat.old.quota }
{
    let mut page = 0;
    'pages: while page < firsts.len() {
        if let Touched::First { .. } = touches.touch_uncounted(seat, page as u64) {
            firsts[page].fetch_add(1, Ordering::SeqCst);
        }
        page += 1;
    }
}

/// Each of these seats touches the pages from 0 on, one for each counter, on a thread of its own.
fn touch_beside<R: Threads + Wait + Sync>(
    rt: &R,
    touches: &Touches,
    seats: &mut [TouchSeat],
    firsts: &[AtomicU64],
)
    requires tables { All (λ s. s.table ≡ touches.now.table) seats.old }
    requires left { All (λ s. length s.touched + length firsts.now ≤ s.quota) seats.old }
    requires few { length firsts.now ≤ 1000 }
    ensures count { length seats.new ≡ length seats.old }
    ensures tables { All (λ s. s.table ≡ touches.now.table) seats.new }
    ensures quotas { sum_by seat_quota seats.new ≡ sum_by seat_quota seats.old }
{
    let turn = |_: usize, seat: &mut TouchSeat|
        requires { (seat.now.table ≡ touches.now.table) × (length seat.now.touched + length firsts.now ≤ seat.now.quota) × (length firsts.now ≤ 1000) }
        ensures { (seat.exit.now.table ≡ seat.entry.now.table) × (seat.exit.now.quota ≡ seat.entry.now.quota) }
    { touch_each(touches, seat, firsts) };
    thread::for_each_mut(rt, seats, 16, &turn);
}

/// Four threads each touch the same pages from 0 on, one for each counter. Gives the pages of the closing. None: out of
/// memory, or above a thousand counters.
fn touch_by_four<R: Threads + Wait + Sync>(
    rt: &R,
    alloc: Global,
    firsts: &[AtomicU64],
) -> Option<Vec<u64>> {
    if firsts.len() > 1000 {
        return None;
    }
    let quota = firsts.len() as u32;
    let Ok((touches, mut seats)) = Touches::open(alloc, &[quota; 4]) else {
        return None;
    };
    touch_beside(rt, &touches, seats.as_mut_slice(), firsts);
    match touches.close(alloc, seats) {
        Ok(pages) => Some(pages),
        Err(_) => None,
    }
}

/// Of each page First was answered to one thread alone, once, and the closing has each page once.
#[test]
fn four_threads_are_told_of_a_thousand_first_touches(rt: HostRuntime) -> Result<(), Fail> {
    let alloc = rt.alloc();
    let mut firsts = Vec::new(alloc);
    let mut expected = Vec::new(alloc);
    for page in 0..1000u64 {
        firsts.push(AtomicU64::new(0))?;
        expected.push(page)?;
    }
    let Some(pages) = touch_by_four(&rt, alloc, firsts.as_slice()) else {
        panic!(rt; "memory")
    };
    assert_eq!(rt; pages.as_slice(), expected.as_slice());
    for count in firsts.as_slice() {
        assert_eq!(rt; count.load(Ordering::SeqCst), 1);
    }
    Ok(())
}
