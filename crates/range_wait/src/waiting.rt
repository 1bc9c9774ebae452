//! Waiting: eight tries awake, then an announcement, and from then on a try of a caller that is counted before each
//! sleep. Where no ticket could be drawn, a caller makes a try awake: it never sleeps unannounced.
//! A reader may rely on a call being moves of `specs/Moves.antt`, one after another.
ghost use Rattle.std.specs.Prelude.{◌≡◌, false, true, None, Some, OnErr};
ghost use Rattle.range_rw.specs.Contract.{StandsIn};
ghost use Rattle.queue_laws.specs.declared.places.Telling.TheVariants.{Silent};
ghost use Rattle.range_wait.specs.Moves.{HasGone, IsWaited};
ghost use Rattle.range_wait.specs.Seats.{both};

use crate::table::{WaitSeat, WaitTable};
use crate::trying::{tries_awake, try_awake, turn};
use event_count::{EventCount, EventSeat};
use lock_core::{Guard, Mode, Range};
use range_queue::{QueueSeat, QueueTable};
use std::sync::Wait;
use word_rows::Backoff;

/// How many tries a caller makes awake before it announces its range.
pub const AWAKE_TRIES: u32 = 8;

/// Announces the range, and tries once: counted, or awake where it has no ticket. True says that the range is held.
fn first_round<G: Guard, R: Wait>(
    rt: &R,
    table: &QueueTable<G>,
    seat: &mut QueueSeat<G>,
    events: &EventCount,
    event: &mut EventSeat,
    range: Range,
    mode: Mode,
    backoff: &mut Backoff,
) -> bool
    requires table { seat.old.table ≡ table.now.table }
    requires events { event.old.table ≡ events.now.table }
    requires free { seat.old.held ≡ None }
    requires out { event.old.counted ≡ false }
    requires silent { seat.old.pass.telling ≡ Silent }
    ensures table { seat.new.table ≡ seat.old.table }
    ensures events { event.new.table ≡ event.old.table }
    ensures out { event.new.counted ≡ false }
    ensures gone { HasGone (record { range = range; mode = mode }) result (both seat.old event.old) (both seat.new event.new) }
    ensures stands { result ≡ true → StandsIn table.now.cut range seat.new.list }
    ensures free { result ≡ false → seat.new.held ≡ None }
{
    match table.announce(seat, range, mode) {
        Ok(_) => match turn(rt, table, seat, events, event, range, mode, backoff) {
            Ok(()) => true,
            Err(_) => false,
        },
        Err(_) => match try_awake(table, seat, events, event, range, mode) {
            Ok(()) => true,
            Err(_) => {
                backoff.wait();
                false
            }
        },
    }
}

/// One round of a caller that announces. True says that the range is held.
fn round<G: Guard, R: Wait>(
    rt: &R,
    table: &QueueTable<G>,
    seat: &mut QueueSeat<G>,
    events: &EventCount,
    event: &mut EventSeat,
    range: Range,
    mode: Mode,
    backoff: &mut Backoff,
) -> bool
    requires table { seat.old.table ≡ table.now.table }
    requires events { event.old.table ≡ events.now.table }
    requires free { seat.old.held ≡ None }
    requires out { event.old.counted ≡ false }
    ensures table { seat.new.table ≡ seat.old.table }
    ensures events { event.new.table ≡ event.old.table }
    ensures out { event.new.counted ≡ false }
    ensures gone { HasGone (record { range = range; mode = mode }) result (both seat.old event.old) (both seat.new event.new) }
    ensures stands { result ≡ true → StandsIn table.now.cut range seat.new.list }
    ensures free { result ≡ false → seat.new.held ≡ None }
{
    match table.ticket(seat) {
        Some(_) => match turn(rt, table, seat, events, event, range, mode, backoff) {
            Ok(()) => true,
            Err(_) => false,
        },
        None => first_round(rt, table, seat, events, event, range, mode, backoff),
    }
}

/// Tries until the range is held.
fn acquire_in<G: Guard, R: Wait>(
    rt: &R,
    table: &QueueTable<G>,
    seat: &mut QueueSeat<G>,
    events: &EventCount,
    event: &mut EventSeat,
    range: Range,
    mode: Mode,
)
    requires table { seat.old.table ≡ table.now.table }
    requires events { event.old.table ≡ events.now.table }
    requires free { seat.old.held ≡ None }
    requires out { event.old.counted ≡ false }
    requires silent { seat.old.pass.telling ≡ Silent }
    ensures table { seat.new.table ≡ seat.old.table }
    ensures events { event.new.table ≡ event.old.table }
    ensures out { event.new.counted ≡ false }
    ensures waited { IsWaited (record { range = range; mode = mode }) (both seat.old event.old) (both seat.new event.new) }
    ensures held { seat.new.held ≡ Some (record { range = range; mode = mode }) }
    ensures silent { seat.new.pass.telling ≡ Silent }
    ensures stands { StandsIn table.now.cut range seat.new.list }
{
    match tries_awake(table, seat, events, event, range, mode, AWAKE_TRIES) {
        Ok(()) => return,
        Err(_) => {}
    }
    let mut backoff = Backoff::new();
    for _ in rt.forever() {
        if round(rt, table, seat, events, event, range, mode, &mut backoff) {
            break;
        }
    }
}

impl<G: Guard> WaitTable<G> {
    /// Tries until the range is held: eight times awake, and then with an announcement, asleep between two tries. The
    /// seat is of this table and holds nothing.
    pub fn acquire<R: Wait>(&self, rt: &R, seat: &mut WaitSeat<G>, range: Range, mode: Mode)
        requires lock { seat.old.lock.table ≡ self.now.lock.table }
        requires events { seat.old.event.table ≡ self.now.events.table }
        requires free { seat.old.lock.held ≡ None }
        ensures lock { seat.new.lock.table ≡ seat.old.lock.table }
        ensures events { seat.new.event.table ≡ seat.old.event.table }
        ensures waited { IsWaited (record { range = range; mode = mode }) seat.old seat.new }
        ensures held { seat.new.lock.held ≡ Some (record { range = range; mode = mode }) }
        ensures stands { StandsIn self.now.lock.cut range seat.new.lock.list }
    {
        acquire_in(
            rt,
            &self.table,
            &mut seat.seat,
            &self.events,
            &mut seat.event,
            range,
            mode,
        );
    }
}
