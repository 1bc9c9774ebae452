//! The cases. Seat 0 writes in 0 to 10, seat 1 is refused, and seat 2 comes later.
ghost use Rattle.std.specs.Prelude.{◌<◌};
ghost use Rattle.test_waits.specs.Seats.{IsIdle};

use crate::plays::{give, hold, open_three, refuse, refuse_up_to, wait_for};
use lock_core::{FreeGuard, Mode, Range};
use range_queue::NotYet;
use range_rw::NotHeld;
use range_wait::{WaitSeat, WaitTable};
use std::process::Abort;

/// The answer of a try that meets a writer of seat 0.
fn busy(range: Range) -> NotYet {
    NotYet::Refused(NotHeld::Busy {
        owner: 0,
        range,
        mode: Mode::Writer,
    })
}

#[test]
fn a_try_names_the_holder_that_refused_it(rt: HostRuntime) {
    let wide = Range::of(0, 10).expect(&rt, "a range");
    let inner = Range::of(4, 5).expect(&rt, "a range");
    let far = Range::of(20, 21).expect(&rt, "a range");
    let (table, mut a, mut b, mut c) = open_three(&rt, rt.alloc());
    hold(&rt, &table, &mut a, wide, Mode::Writer);
    refuse(&rt, &table, &mut b, inner, Mode::Writer, busy(wide));
    refuse(&rt, &table, &mut c, wide, Mode::Reader, busy(wide));
    hold(&rt, &table, &mut c, far, Mode::Writer);
    give(&rt, &table, &mut c);
    give(&rt, &table, &mut a);
}

#[test]
fn a_call_that_waits_holds_a_free_range_at_once(rt: HostRuntime) {
    let wide = Range::of(0, 10).expect(&rt, "a range");
    let (table, mut a, mut b, mut c) = open_three(&rt, rt.alloc());
    hold(&rt, &table, &mut a, wide, Mode::Writer);
    refuse(&rt, &table, &mut b, wide, Mode::Writer, busy(wide));
    give(&rt, &table, &mut a);
    wait_for(&rt, &table, &mut b, wide, Mode::Writer);
    give(&rt, &table, &mut b);
    wait_for(&rt, &table, &mut b, wide, Mode::Reader);
    wait_for(&rt, &table, &mut c, wide, Mode::Reader);
    give(&rt, &table, &mut b);
    give(&rt, &table, &mut c);
}

/// So many tries beside a writer are refused; then the range is free for a third seat, and for the one that was
/// refused.
fn try_beside(
    rt: &impl Abort,
    table: &WaitTable<FreeGuard>,
    writes: &mut WaitSeat<FreeGuard>,
    tries: &mut WaitSeat<FreeGuard>,
    later: &mut WaitSeat<FreeGuard>,
    range: Range,
    most: u32,
)
    requires some { 0 < most }
    requires writes { IsIdle table.now.lock.table table.now.events.table writes.old }
    requires tries { IsIdle table.now.lock.table table.now.events.table tries.old }
    requires later { IsIdle table.now.lock.table table.now.events.table later.old }
    ensures writes { IsIdle table.now.lock.table table.now.events.table writes.new }
    ensures tries { IsIdle table.now.lock.table table.now.events.table tries.new }
    ensures later { IsIdle table.now.lock.table table.now.events.table later.new }
{
    hold(rt, table, writes, range, Mode::Writer);
    refuse_up_to(rt, table, tries, range, most, busy(range));
    give(rt, table, writes);
    hold(rt, table, later, range, Mode::Writer);
    give(rt, table, later);
    hold(rt, table, tries, range, Mode::Writer);
    give(rt, table, tries);
}

/// The ninth try is the first one behind an announcement.
#[test]
fn a_call_that_gives_up_leaves_nothing_announced(rt: HostRuntime) {
    let wide = Range::of(0, 10).expect(&rt, "a range");
    let (table, mut a, mut b, mut c) = open_three(&rt, rt.alloc());
    try_beside(&rt, &table, &mut a, &mut b, &mut c, wide, 1);
    try_beside(&rt, &table, &mut a, &mut b, &mut c, wide, 8);
    try_beside(&rt, &table, &mut a, &mut b, &mut c, wide, 9);
    try_beside(&rt, &table, &mut a, &mut b, &mut c, wide, 12);
}
