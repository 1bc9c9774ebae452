//! A try with a look behind it, and the two ways to make one: awake, or counted, and then with a sleep behind it.
//! A reader may rely on a sleep being behind a refusal of a caller that was counted before its try.
ghost use Rattle.std.specs.Prelude.{◌≡◌, ◌<◌, false, true, None, IsSome, OnOk, OnErr};
ghost use Rattle.event_count.specs.Calls.{Prepares};
ghost use Rattle.range_rw.specs.Contract.{StandsIn};
ghost use Rattle.range_queue.specs.Looks.{ticket_of};
ghost use Rattle.range_queue.specs.Tries.{IsKept};
ghost use Rattle.range_wait.specs.Moves.{EndsTurn, IsOneTry, IsRound, IsTriedTwice, IsTriedUpTo, next_of};
ghost use Rattle.range_wait.specs.Seats.{both};

use crate::refused::{Missed, Next, next_of};
use event_count::{EventCount, EventSeat};
use lock_core::{Guard, Mode, Range};
use range_queue::{NotYet, QueueSeat, QueueTable};
use std::sync::Wait;
use word_rows::Backoff;

/// A try, and where the lock refused it, a look behind it: the node of this try may have refused another caller, which
/// sleeps for it.
fn try_twice<G: Guard>(
    table: &QueueTable<G>,
    seat: &mut QueueSeat<G>,
    range: Range,
    mode: Mode,
) -> Result<(), Missed>
    requires table { seat.old.table ≡ table.now.table }
    requires free { seat.old.held ≡ None }
    ensures tried { IsTriedTwice (record { range = range; mode = mode }) result seat.old seat.new }
    ensures table { seat.new.table ≡ seat.old.table }
    ensures stands { OnOk result (StandsIn table.now.cut range seat.new.list) }
    ensures kept { OnErr result (IsKept seat.old seat.new) }
    ensures free { OnErr result (seat.new.held ≡ None) }
{
    match table.try_acquire(seat, range, mode) {
        Ok(()) => Ok(()),
        Err(NotYet::Behind { seat: number, met }) => {
            let why = NotYet::Behind { seat: number, met };
            Err(Missed { why, way: false })
        }
        Err(NotYet::Refused(cause)) => {
            let way = table.gives_way(seat, range, mode);
            let why = NotYet::Refused(cause);
            Err(Missed { why, way })
        }
    }
}

/// The same of a caller that is counted.
fn try_counted<G: Guard>(
    table: &QueueTable<G>,
    seat: &mut QueueSeat<G>,
    event: &EventSeat,
    range: Range,
    mode: Mode,
) -> Result<(), Missed>
    requires table { seat.old.table ≡ table.now.table }
    requires free { seat.old.held ≡ None }
    requires counted { event.now.counted ≡ true }
    ensures tried { IsTriedTwice (record { range = range; mode = mode }) result seat.old seat.new }
    ensures stands { OnOk result (StandsIn table.now.cut range seat.new.list) }
    ensures kept { OnErr result (IsKept seat.old seat.new) }
    ensures free { OnErr result (seat.new.held ≡ None) }
{
    let _ = event;
    try_twice(table, seat, range, mode)
}

/// What a counted caller does behind a refusal: it sleeps, or counts itself out; then it wakes others if it gave way,
/// and otherwise pauses.
fn end_turn<R: Wait>(
    rt: &R,
    events: &EventCount,
    event: &mut EventSeat,
    seen: u64,
    next: Next,
    backoff: &mut Backoff,
)
    requires table { event.old.table ≡ events.now.table }
    requires counted { event.old.counted ≡ true }
    ensures table { event.new.table ≡ event.old.table }
    ensures out { event.new.counted ≡ false }
    ensures ends { EndsTurn seen next event.old.steps event.new.steps }
{
    match next {
        Next::Sleeps => {
            events.sleep(rt, event, seen);
        }
        Next::Wakes => {
            events.cancel(event);
            events.notify(event);
        }
        Next::Anew => {
            events.cancel(event);
            backoff.wait();
        }
    }
}

/// A turn of a caller with a ticket: it counts itself, tries, and sleeps or goes on.
pub(crate) fn turn<G: Guard, R: Wait>(
    rt: &R,
    table: &QueueTable<G>,
    seat: &mut QueueSeat<G>,
    events: &EventCount,
    event: &mut EventSeat,
    range: Range,
    mode: Mode,
    backoff: &mut Backoff,
) -> Result<(), NotYet>
    requires table { seat.old.table ≡ table.now.table }
    requires events { event.old.table ≡ events.now.table }
    requires free { seat.old.held ≡ None }
    requires out { event.old.counted ≡ false }
    requires ticket { IsSome (ticket_of seat.old.pass.telling) }
    ensures events { event.new.table ≡ event.old.table }
    ensures out { event.new.counted ≡ false }
    ensures round { IsRound (record { range = range; mode = mode }) result (both seat.old event.old) (both seat.new event.new) }
    ensures stands { OnOk result (StandsIn table.now.cut range seat.new.list) }
    ensures kept { OnErr result (IsKept seat.old seat.new) }
    ensures free { OnErr result (seat.new.held ≡ None) }
{
    let seen = events.prepare(event);
    match try_counted(table, seat, event, range, mode) {
        Ok(()) => {
            events.cancel(event);
            Ok(())
        }
        Err(Missed { why, way }) => {
            let next = next_of(&why, way);
            end_turn(rt, events, event, seen, next, backoff);
            Err(why)
        }
    }
}

/// A try of a caller that isn't counted. It wakes others if it gave way behind its try.
pub(crate) fn try_awake<G: Guard>(
    table: &QueueTable<G>,
    seat: &mut QueueSeat<G>,
    events: &EventCount,
    event: &mut EventSeat,
    range: Range,
    mode: Mode,
) -> Result<(), NotYet>
    requires table { seat.old.table ≡ table.now.table }
    requires events { event.old.table ≡ events.now.table }
    requires free { seat.old.held ≡ None }
    requires out { event.old.counted ≡ false }
    ensures table { seat.new.table ≡ seat.old.table }
    ensures events { event.new.table ≡ event.old.table }
    ensures out { event.new.counted ≡ false }
    ensures tried { IsOneTry (record { range = range; mode = mode }) result (both seat.old event.old) (both seat.new event.new) }
    ensures stands { OnOk result (StandsIn table.now.cut range seat.new.list) }
    ensures kept { OnErr result (IsKept seat.old seat.new) }
    ensures free { OnErr result (seat.new.held ≡ None) }
{
    match try_twice(table, seat, range, mode) {
        Ok(()) => Ok(()),
        Err(Missed { why, way }) => {
            if way {
                events.notify(event);
            }
            Err(why)
        }
    }
}

/// Up to so many tries, at least one, with growing pauses between them, with or without an announcement. It never
/// sleeps.
pub(crate) fn tries_awake<G: Guard>(
    table: &QueueTable<G>,
    seat: &mut QueueSeat<G>,
    events: &EventCount,
    event: &mut EventSeat,
    range: Range,
    mode: Mode,
    tries: u32,
) -> Result<(), NotYet>
    requires table { seat.old.table ≡ table.now.table }
    requires events { event.old.table ≡ events.now.table }
    requires free { seat.old.held ≡ None }
    requires out { event.old.counted ≡ false }
    requires some { 0 < tries }
    ensures table { seat.new.table ≡ seat.old.table }
    ensures events { event.new.table ≡ event.old.table }
    ensures out { event.new.counted ≡ false }
    ensures tried { IsTriedUpTo (record { range = range; mode = mode }) tries result (both seat.old event.old) (both seat.new event.new) }
    ensures stands { OnOk result (StandsIn table.now.cut range seat.new.list) }
    ensures kept { OnErr result (IsKept seat.old seat.new) }
    ensures free { OnErr result (seat.new.held ≡ None) }
{
    let mut backoff = Backoff::new();
    'tries: for _ in 1..tries {
        match try_awake(table, seat, events, event, range, mode) {
            Ok(()) => return Ok(()),
            Err(_) => backoff.wait(),
        }
    }
    try_awake(table, seat, events, event, range, mode)
}
