//! A call that makes up to so many tries and never sleeps. A caller that is refused `AWAKE_TRIES` times announces its
//! range, and takes the announcement back where all its tries are refused. A reader may rely on that being told to
//! those who gave way to it and sleep.
ghost use Rattle.std.specs.Prelude.{◌≡◌, ◌<◌, false, None, Some, OnOk, OnErr};
ghost use Rattle.range_rw.specs.Contract.{StandsIn};
ghost use Rattle.queue_laws.specs.declared.places.Telling.TheVariants.{Silent};
ghost use Rattle.range_wait.specs.declared.waiting.TheConstants.{AWAKE_TRIES};
ghost use Rattle.range_wait.specs.Moves.{IsGivenUp, IsToldUpTo, IsUpTo};
ghost use Rattle.range_wait.specs.Seats.{both};

use crate::table::{WaitSeat, WaitTable};
use crate::trying::tries_awake;
use crate::waiting::AWAKE_TRIES;
use event_count::{EventCount, EventSeat};
use lock_core::{Guard, Mode, Range};
use range_queue::{NotYet, QueueSeat, QueueTable};

/// Takes the announcement back, and wakes those who may have given way to it.
fn give_up<G: Guard>(
    table: &QueueTable<G>,
    seat: &mut QueueSeat<G>,
    events: &EventCount,
    event: &mut EventSeat,
)
    requires table { seat.old.table ≡ table.now.table }
    requires events { event.old.table ≡ events.now.table }
    ensures events { event.new.table ≡ event.old.table }
    ensures counted { event.new.counted ≡ event.old.counted }
    ensures gave { IsGivenUp (both seat.old event.old) (both seat.new event.new) }
{
    table.withdraw(seat);
    events.notify(event);
}

/// Announces the range, tries up to so many times, and gives up where all were refused.
fn told_up_to<G: Guard>(
    table: &QueueTable<G>,
    seat: &mut QueueSeat<G>,
    events: &EventCount,
    event: &mut EventSeat,
    range: Range,
    mode: Mode,
    tries: u32,
) -> Result<(), NotYet>
    requires table { seat.old.table ≡ table.now.table }
    requires events { event.old.table ≡ events.now.table }
    requires free { seat.old.held ≡ None }
    requires out { event.old.counted ≡ false }
    requires silent { seat.old.pass.telling ≡ Silent }
    requires some { 0 < tries }
    ensures table { seat.new.table ≡ seat.old.table }
    ensures events { event.new.table ≡ event.old.table }
    ensures out { event.new.counted ≡ false }
    ensures tried { IsToldUpTo (record { range = range; mode = mode }) tries result (both seat.old event.old) (both seat.new event.new) }
    ensures stands { OnOk result (StandsIn table.now.cut range seat.new.list) }
    ensures free { OnErr result (seat.new.held ≡ None) }
    ensures silent { OnErr result (seat.new.pass.telling ≡ Silent) }
{
    let _ = table.announce(seat, range, mode);
    match tries_awake(table, seat, events, event, range, mode, tries) {
        Ok(()) => Ok(()),
        Err(why) => {
            give_up(table, seat, events, event);
            Err(why)
        }
    }
}

/// Up to so many tries, of which the first ones are made without an announcement.
fn up_to<G: Guard>(
    table: &QueueTable<G>,
    seat: &mut QueueSeat<G>,
    events: &EventCount,
    event: &mut EventSeat,
    range: Range,
    mode: Mode,
    tries: u32,
) -> Result<(), NotYet>
    requires table { seat.old.table ≡ table.now.table }
    requires events { event.old.table ≡ events.now.table }
    requires free { seat.old.held ≡ None }
    requires out { event.old.counted ≡ false }
    requires silent { seat.old.pass.telling ≡ Silent }
    requires some { 0 < tries }
    ensures table { seat.new.table ≡ seat.old.table }
    ensures events { event.new.table ≡ event.old.table }
    ensures out { event.new.counted ≡ false }
    ensures tried { IsUpTo (record { range = range; mode = mode }) AWAKE_TRIES tries result (both seat.old event.old) (both seat.new event.new) }
    ensures held { OnOk result (seat.new.held ≡ Some (record { range = range; mode = mode })) }
    ensures stands { OnOk result (StandsIn table.now.cut range seat.new.list) }
    ensures free { OnErr result (seat.new.held ≡ None) }
    ensures silent { seat.new.pass.telling ≡ Silent }
{
    if tries <= AWAKE_TRIES {
        return tries_awake(table, seat, events, event, range, mode, tries);
    }
    match tries_awake(table, seat, events, event, range, mode, AWAKE_TRIES) {
        Ok(()) => Ok(()),
        Err(_) => told_up_to(table, seat, events, event, range, mode, tries - AWAKE_TRIES),
    }
}

impl<G: Guard> WaitTable<G> {
    /// Tries up to so many times, at least once, to hold the range, with growing pauses between two tries, and never
    /// sleeps. After `AWAKE_TRIES` refusals it announces the range, so others give way to it from then on. The seat is
    /// of this table and holds nothing. `Err` has the cause of the last try; the announcement is taken back then, and
    /// those who gave way to it are woken.
    pub fn acquire_up_to(
        &self,
        seat: &mut WaitSeat<G>,
        range: Range,
        mode: Mode,
        tries: u32,
    ) -> Result<(), NotYet>
        requires lock { seat.old.lock.table ≡ self.now.lock.table }
        requires events { seat.old.event.table ≡ self.now.events.table }
        requires free { seat.old.lock.held ≡ None }
        requires some { 0 < tries }
        ensures lock { seat.new.lock.table ≡ seat.old.lock.table }
        ensures events { seat.new.event.table ≡ seat.old.event.table }
        ensures tried { IsUpTo (record { range = range; mode = mode }) AWAKE_TRIES tries result seat.old seat.new }
        ensures held { OnOk result (seat.new.lock.held ≡ Some (record { range = range; mode = mode })) }
        ensures stands { OnOk result (StandsIn self.now.lock.cut range seat.new.lock.list) }
        ensures free { OnErr result (seat.new.lock.held ≡ None) }
    {
        up_to(
            &self.table,
            &mut seat.seat,
            &self.events,
            &mut seat.event,
            range,
            mode,
            tries,
        )
    }
}
