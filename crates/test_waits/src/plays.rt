//! The calls as the cases script them: each tells what the next one needs, and no more.
ghost use Rattle.std.specs.Prelude.{◌≡◌, ◌+◌, ◌<◌, IsSome, length};
ghost use Rattle.test_waits.specs.Seats.{AreIdle, IsIdle, IsOf};

use crate::opened::open_seats;
use event_count::Notified;
use lock_core::{FreeGuard, Mode, Range};
use range_queue::NotYet;
use range_wait::{WaitSeat, WaitTable};
use std::alloc::Global;
use std::process::Abort;
use std::sync::Wait;

/// The first of these seats, which leaves the others.
fn take_first(
    table: &WaitTable<FreeGuard>,
    seats: &mut Vec<WaitSeat<FreeGuard>>,
) -> WaitSeat<FreeGuard>
    requires idle { AreIdle table.now.lock.table table.now.events.table seats.old.items }
    requires some { 0 < length seats.old.items }
    ensures first { IsIdle table.now.lock.table table.now.events.table result }
    ensures rest { AreIdle table.now.lock.table table.now.events.table seats.new.items }
    ensures count { length seats.new.items + 1 ≡ length seats.old.items }
{
    let _ = table;
    seats.remove(0)
}

/// A table of three seats under no rule, and its seats.
pub fn open_three(
    rt: &impl Abort,
    alloc: Global,
) -> (
    WaitTable<FreeGuard>,
    WaitSeat<FreeGuard>,
    WaitSeat<FreeGuard>,
    WaitSeat<FreeGuard>,
)
    ensures first { IsIdle result.0.lock.table result.0.events.table result.1 }
    ensures second { IsIdle result.0.lock.table result.0.events.table result.2 }
    ensures third { IsIdle result.0.lock.table result.0.events.table result.3 }
{
    let Some((table, mut seats)) = open_seats(alloc, 3) else {
        panic!(rt; "memory")
    };
    let first = take_first(&table, &mut seats);
    let second = take_first(&table, &mut seats);
    let third = take_first(&table, &mut seats);
    (table, first, second, third)
}

/// Holds the range by a single try.
pub fn hold(
    rt: &impl Abort,
    table: &WaitTable<FreeGuard>,
    seat: &mut WaitSeat<FreeGuard>,
    range: Range,
    mode: Mode,
)
    requires idle { IsIdle table.now.lock.table table.now.events.table seat.old }
    ensures of { IsOf table.now.lock.table table.now.events.table seat.new }
    ensures held { IsSome seat.new.lock.held }
{
    assert!(rt; table.try_acquire(seat, range, mode).is_ok());
    assert_eq!(rt; table.held(seat), Some((range, mode)));
}

/// Holds the range by the call that waits.
pub fn wait_for<R: Abort + Wait>(
    rt: &R,
    table: &WaitTable<FreeGuard>,
    seat: &mut WaitSeat<FreeGuard>,
    range: Range,
    mode: Mode,
)
    requires idle { IsIdle table.now.lock.table table.now.events.table seat.old }
    ensures of { IsOf table.now.lock.table table.now.events.table seat.new }
    ensures held { IsSome seat.new.lock.held }
{
    table.acquire(rt, seat, range, mode);
    assert_eq!(rt; table.held(seat), Some((range, mode)));
}

/// Tries once for the range, and is refused so.
pub fn refuse(
    rt: &impl Abort,
    table: &WaitTable<FreeGuard>,
    seat: &mut WaitSeat<FreeGuard>,
    range: Range,
    mode: Mode,
    expected: NotYet,
)
    requires idle { IsIdle table.now.lock.table table.now.events.table seat.old }
    ensures idle { IsIdle table.now.lock.table table.now.events.table seat.new }
{
    match table.try_acquire(seat, range, mode) {
        Ok(()) => panic!(rt; "held"),
        Err(refused) => assert_eq!(rt; refused, expected),
    }
}

/// Makes so many tries for the range, and is refused so.
pub fn refuse_up_to(
    rt: &impl Abort,
    table: &WaitTable<FreeGuard>,
    seat: &mut WaitSeat<FreeGuard>,
    range: Range,
    tries: u32,
    expected: NotYet,
)
    requires idle { IsIdle table.now.lock.table table.now.events.table seat.old }
    requires some { 0 < tries }
    ensures idle { IsIdle table.now.lock.table table.now.events.table seat.new }
{
    match table.acquire_up_to(seat, range, Mode::Writer, tries) {
        Ok(()) => panic!(rt; "held"),
        Err(refused) => assert_eq!(rt; refused, expected),
    }
}

/// Gives back what the seat holds, where nobody is counted.
pub fn give(rt: &impl Abort, table: &WaitTable<FreeGuard>, seat: &mut WaitSeat<FreeGuard>)
    requires of { IsOf table.now.lock.table table.now.events.table seat.old }
    requires held { IsSome seat.old.lock.held }
    ensures idle { IsIdle table.now.lock.table table.now.events.table seat.new }
{
    assert_eq!(rt; table.release(seat), Notified::Nobody);
    assert_eq!(rt; table.held(seat), None);
}
