//! Threads that take one range in turn, each by eight tries, an announcement, and tries until it holds. While one waits
//! behind its announcement, the others' grants are counted; a reader may rely on each seat being free after its turns.
ghost use Rattle.std.specs.Prelude.{◌≡◌, IsSome, IfSome, None, true, false};
ghost use Rattle.std.specs.Bool.{OnTrue, OnFalse};
ghost use Rattle.queue_laws.specs.declared.places.Telling.TheVariants.{Silent};
ghost use Rattle.test_queue.specs.Players.{AreIdle, IsFree, IsIdle};

use lock_core::{FreeGuard, Mode, Range};
use range_queue::{QueueSeat, QueueTable};
use std::sync::Wait;
use std::sync::atomic::{AtomicU64, Ordering};
use std::thread;
use std::thread::Threads;
use word_rows::Backoff;

/// More tries than any turn needs: then the waiting caller is lost.
const MOST_TRIES: u32 = 1_000_000;

/// What the threads share: how often the range was granted, how often behind an announcement, the most grants to others
/// meanwhile, and how many turns found no end.
#[derive(Drop)]
pub struct Seen {
    pub grants: AtomicU64,
    pub waits: AtomicU64,
    pub most: AtomicU64,
    pub lost: AtomicU64,
}

/// So many tries, with growing pauses behind the first eight. True says that the range is held.
fn try_some(
    table: &QueueTable<FreeGuard>,
    seat: &mut QueueSeat<FreeGuard>,
    range: Range,
    tries: u32,
) -> bool
    requires free { IsFree table.now.table seat.old }
    ensures table { seat.new.table ≡ table.now.table }
    ensures held { OnTrue result (IsSome seat.new.held) }
    ensures silent { OnTrue result (seat.new.pass.telling ≡ Silent) }
    ensures free { OnFalse result (IsFree table.now.table seat.new) }
{
    let mut backoff = Backoff::new();
    'tries: for i in 0..tries {
        if table.try_acquire(seat, range, Mode::Writer).is_ok() {
            return true;
        }
        if i >= 8 {
            backoff.wait();
        }
    }
    false
}

/// Holds the range, and gives how many grants to others came between its announcement and its own: 0 if it held the
/// range before it announced itself. None says that it gave up.
fn hold_queued(
    table: &QueueTable<FreeGuard>,
    seat: &mut QueueSeat<FreeGuard>,
    range: Range,
    grants: &AtomicU64,
    waits: &AtomicU64,
) -> Option<u64>
    requires idle { IsIdle table.now.table seat.old }
    ensures table { seat.new.table ≡ table.now.table }
    ensures held { IfSome result (λ _. IsSome seat.new.held) }
    ensures silent { IfSome result (λ _. seat.new.pass.telling ≡ Silent) }
    ensures free { (result ≡ None) → IsFree table.now.table seat.new }
{
    if try_some(table, seat, range, 8) {
        return Some(0);
    }
    table.withdraw(seat);
    let announced = table.announce(seat, range, Mode::Writer).is_ok();
    let from = grants.load(Ordering::SeqCst);
    if !try_some(table, seat, range, MOST_TRIES) {
        return None;
    }
    let until = grants.load(Ordering::SeqCst);
    if announced {
        waits.fetch_add(1, Ordering::SeqCst);
        return Some(until.wrapping_sub(from));
    }
    Some(0)
}

/// One turn: the range is held for a while, counted, and given back.
fn take_turn(
    table: &QueueTable<FreeGuard>,
    seat: &mut QueueSeat<FreeGuard>,
    range: Range,
    seen: &Seen,
)
    requires idle { IsIdle table.now.table seat.old }
    ensures idle { IsIdle table.now.table seat.new }
{
    match hold_queued(table, seat, range, &seen.grants, &seen.waits) {
        Some(overtaken) => {
            seen.most.fetch_max(overtaken, Ordering::SeqCst);
            seen.grants.fetch_add(1, Ordering::SeqCst);
            let mut hold = Backoff::new();
            hold.wait();
            hold.wait();
            table.release(seat);
        }
        None => {
            seen.lost.fetch_add(1, Ordering::SeqCst);
            table.withdraw(seat);
        }
    }
}

/// So many turns of one seat.
fn take_turns(
    table: &QueueTable<FreeGuard>,
    seat: &mut QueueSeat<FreeGuard>,
    seen: &Seen,
    turns: u32,
)
    requires idle { IsIdle table.now.table seat.old }
    ensures idle { IsIdle table.now.table seat.new }
{
    let Ok(range) = Range::of(0, 10) else {
        unreachable!()
    };
    'turns: for _ in 0..turns {
        take_turn(table, seat, range, seen);
    }
}

/// Each seat takes so many turns, each on a thread of its own.
pub fn take_all<R: Threads + Wait + Sync>(
    rt: &R,
    table: &QueueTable<FreeGuard>,
    seats: &mut [QueueSeat<FreeGuard>],
    seen: &Seen,
    turns: u32,
)
    requires idle { AreIdle table.now.table seats.old }
{
    let turn = |_: usize, seat: &mut QueueSeat<FreeGuard>|
        requires { IsIdle table.now.table seat.now }
        ensures { IsIdle table.entry.now.table seat.exit.now }
    { take_turns(table, seat, seen, turns) };
    thread::for_each_mut(rt, seats, 16, &turn);
}
