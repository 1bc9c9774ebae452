//! The cases. Seat 0 writes in 0 to 10, seat 1 waits for 0 to 10, and seat 2 comes later.
use crate::plays::{announce, give, hold, open_three, refuse, withdraw};
use lock_core::{Held, Mode, Range};
use range_queue::{Announcement, NotYet};
use range_rw::NotHeld;

/// The answer of a try that gives way to the announcement of a writer of these numbers.
fn behind(seat: u32, ticket: u64, range: Range) -> NotYet {
    let mode = Mode::Writer;
    NotYet::Behind {
        seat,
        met: Announcement {
            ticket,
            held: Held { range, mode },
        },
    }
}

#[test]
fn a_later_caller_gives_way_to_an_older_one_in_conflict(rt: HostRuntime) {
    let wide = Range::of(0, 10).expect(&rt, "a range");
    let inner = Range::of(4, 5).expect(&rt, "a range");
    let far = Range::of(20, 21).expect(&rt, "a range");
    let (table, mut a, mut b, mut c) = open_three(&rt, rt.alloc());
    hold(&rt, &table, &mut a, wide, Mode::Writer);
    let busy = NotYet::Refused(NotHeld::Busy {
        owner: 0,
        range: wide,
        mode: Mode::Writer,
    });
    refuse(&rt, &table, &mut b, wide, Mode::Writer, busy);
    announce(&rt, &table, &mut b, wide, Mode::Writer, 1);
    give(&table, &mut a);
    // The range is free, and yet a later caller gives way; one without a conflict doesn't.
    refuse(&rt, &table, &mut c, inner, Mode::Reader, behind(1, 1, wide));
    hold(&rt, &table, &mut c, far, Mode::Writer);
    give(&table, &mut c);
    // Of two that wait the later one gives way to the older one, and not the other way round.
    announce(&rt, &table, &mut c, inner, Mode::Writer, 2);
    refuse(&rt, &table, &mut c, inner, Mode::Writer, behind(1, 1, wide));
    hold(&rt, &table, &mut b, wide, Mode::Writer);
    give(&table, &mut b);
    hold(&rt, &table, &mut c, inner, Mode::Writer);
    give(&table, &mut c);
}

#[test]
fn readers_do_not_give_way_to_readers(rt: HostRuntime) {
    let wide = Range::of(0, 10).expect(&rt, "a range");
    let (table, mut a, mut b, mut c) = open_three(&rt, rt.alloc());
    hold(&rt, &table, &mut a, wide, Mode::Writer);
    announce(&rt, &table, &mut b, wide, Mode::Reader, 1);
    give(&table, &mut a);
    hold(&rt, &table, &mut c, wide, Mode::Reader);
    hold(&rt, &table, &mut b, wide, Mode::Reader);
    give(&table, &mut c);
    give(&table, &mut b);
}

#[test]
fn who_withdraws_is_not_waited_for(rt: HostRuntime) {
    let wide = Range::of(0, 10).expect(&rt, "a range");
    let (table, mut a, mut b, mut c) = open_three(&rt, rt.alloc());
    hold(&rt, &table, &mut a, wide, Mode::Writer);
    announce(&rt, &table, &mut b, wide, Mode::Writer, 1);
    give(&table, &mut a);
    refuse(&rt, &table, &mut c, wide, Mode::Writer, behind(1, 1, wide));
    withdraw(&rt, &table, &mut b);
    hold(&rt, &table, &mut c, wide, Mode::Writer);
    give(&table, &mut c);
}

/// Each other seat tries again and again. None holds its range before the one that waits.
#[test]
fn nobody_that_looks_later_overtakes(rt: HostRuntime) {
    let wide = Range::of(0, 10).expect(&rt, "a range");
    let (table, mut a, mut b, mut c) = open_three(&rt, rt.alloc());
    hold(&rt, &table, &mut c, wide, Mode::Writer);
    announce(&rt, &table, &mut b, wide, Mode::Writer, 1);
    give(&table, &mut c);
    for _ in 0..100 {
        refuse(&rt, &table, &mut a, wide, Mode::Writer, behind(1, 1, wide));
        refuse(&rt, &table, &mut c, wide, Mode::Reader, behind(1, 1, wide));
    }
    hold(&rt, &table, &mut b, wide, Mode::Writer);
    give(&table, &mut b);
    hold(&rt, &table, &mut a, wide, Mode::Writer);
    give(&table, &mut a);
}
