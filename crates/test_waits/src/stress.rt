//! Threads that take one range in turn. Each turn counts itself in and out of the range, and how many its release woke.
//! A reader may rely on each seat being free after its turns.
ghost use Rattle.std.specs.Prelude.{◌≡◌, IsSome, None};
ghost use Rattle.std.specs.Bool.{OnTrue, OnFalse};
ghost use Rattle.test_waits.specs.Seats.{AreIdle, IsIdle, IsOf};

use crate::opened::open_seats;
use event_count::Notified;
use lock_core::{FreeGuard, Mode, Range};
use range_wait::{WaitSeat, WaitTable};
use std::alloc::Global;
use std::process::Abort;
use std::sync::Wait;
use std::sync::atomic::{AtomicU64, Ordering};
use std::thread;
use std::thread::Threads;
use word_rows::Backoff;

/// More tries than any turn needs: then its caller is lost.
const MOST_TRIES: u32 = 1_000_000;

/// What a writer counts for inside the range, more than all readers together, of which each counts 1.
pub const WRITER: u64 = 16;

/// By which call a seat comes to hold the range.
#[derive(Clone, Copy, PartialEq, Eq)]
pub enum Way {
    /// The one that sleeps.
    Sleeps,
    /// The one that never sleeps, with a million tries.
    Tries,
}

/// What each seat does: so many turns of that way, each held for so many pauses, every second one as a reader where
/// there are readers.
#[derive(Clone, Copy)]
pub struct Plan {
    pub way: Way,
    pub turns: u32,
    pub pauses: u32,
    pub readers: bool,
}

/// What the threads share: what is inside the range, the most that ever was, how many turns came, how many found no
/// end, and how many sleepers the releases woke.
#[derive(Drop)]
pub struct Seen {
    pub inside: AtomicU64,
    pub most: AtomicU64,
    pub turns: AtomicU64,
    pub lost: AtomicU64,
    pub woke: AtomicU64,
}

/// True says that the range is held.
fn come_in<R: Wait>(
    rt: &R,
    table: &WaitTable<FreeGuard>,
    seat: &mut WaitSeat<FreeGuard>,
    range: Range,
    mode: Mode,
    way: Way,
) -> bool
    requires idle { IsIdle table.now.lock.table table.now.events.table seat.old }
    ensures of { IsOf table.now.lock.table table.now.events.table seat.new }
    ensures held { OnTrue result (IsSome seat.new.lock.held) }
    ensures free { OnFalse result (seat.new.lock.held ≡ None) }
{
    match way {
        Way::Sleeps => {
            table.acquire(rt, seat, range, mode);
            true
        }
        Way::Tries => table.acquire_up_to(seat, range, mode, MOST_TRIES).is_ok(),
    }
}

/// Counts a caller in, lets it stay for so many pauses, and counts it out.
fn stay(seen: &Seen, mode: Mode, pauses: u32) {
    let weight = match mode {
        Mode::Reader => 1,
        Mode::Writer => WRITER,
    };
    let before = seen.inside.fetch_add(weight, Ordering::SeqCst);
    let now = before.wrapping_add(weight);
    seen.most.fetch_max(now, Ordering::SeqCst);
    let mut backoff = Backoff::new();
    for _ in 0..pauses {
        backoff.wait();
    }
    seen.turns.fetch_add(1, Ordering::SeqCst);
    seen.inside.fetch_sub(weight, Ordering::SeqCst);
}

/// One turn: the range is held for a while, counted, and given back.
fn take_turn<R: Wait>(
    rt: &R,
    table: &WaitTable<FreeGuard>,
    seat: &mut WaitSeat<FreeGuard>,
    range: Range,
    mode: Mode,
    plan: Plan,
    seen: &Seen,
)
    requires idle { IsIdle table.now.lock.table table.now.events.table seat.old }
    ensures idle { IsIdle table.now.lock.table table.now.events.table seat.new }
{
    if !come_in(rt, table, seat, range, mode, plan.way) {
        seen.lost.fetch_add(1, Ordering::SeqCst);
        return;
    }
    stay(seen, mode, plan.pauses);
    match table.release(seat) {
        Notified::Woke(sleepers) => {
            seen.woke.fetch_add(sleepers, Ordering::SeqCst);
        }
        Notified::Nobody => {}
    }
}

/// The turns of one seat.
fn take_turns<R: Wait>(
    rt: &R,
    table: &WaitTable<FreeGuard>,
    seat: &mut WaitSeat<FreeGuard>,
    plan: Plan,
    seen: &Seen,
)
    requires idle { IsIdle table.now.lock.table table.now.events.table seat.old }
    ensures idle { IsIdle table.now.lock.table table.now.events.table seat.new }
{
    let Ok(range) = Range::of(0, 10) else {
        unreachable!()
    };
    'turns: for i in 0..plan.turns {
        let mode = if plan.readers && i % 2 == 1 {
            Mode::Reader
        } else {
            Mode::Writer
        };
        take_turn(rt, table, seat, range, mode, plan, seen);
    }
}

/// Each seat takes its turns, each on a thread of its own.
fn take_all<R: Threads + Wait + Sync>(
    rt: &R,
    table: &WaitTable<FreeGuard>,
    seats: &mut [WaitSeat<FreeGuard>],
    plan: Plan,
    seen: &Seen,
)
    requires idle { AreIdle table.now.lock.table table.now.events.table seats.old }
{
    let turns = |_: usize, seat: &mut WaitSeat<FreeGuard>|
        requires { IsIdle table.now.lock.table table.now.events.table seat.now }
        ensures { IsIdle table.entry.now.lock.table table.entry.now.events.table seat.exit.now }
    { take_turns(rt, table, seat, plan, seen) };
    thread::for_each_mut(rt, seats, 16, &turns);
}

/// Four threads follow the plan at one range of a new table.
pub fn play<R: Abort + Threads + Wait + Sync>(rt: &R, alloc: Global, plan: Plan) -> Seen {
    let Some((table, mut seats)) = open_seats(alloc, 4) else {
        panic!(rt; "memory")
    };
    let seen = Seen {
        inside: AtomicU64::new(0),
        most: AtomicU64::new(0),
        turns: AtomicU64::new(0),
        lost: AtomicU64::new(0),
        woke: AtomicU64::new(0),
    };
    take_all(rt, &table, seats.as_mut_slice(), plan, &seen);
    seen
}
