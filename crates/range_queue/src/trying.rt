//! A try: a look at the announcements, and then one try of the lock, if nothing was met. A reader may rely on a try
//! that gives way making no step on the lock, and on no try of the lock being made but behind a look of its own.
ghost use Rattle.std.specs.Prelude.{◌≡◌, ◌<◌, ◌≤◌, None, Some, OnOk, OnErr};
ghost use Rattle.range_rw.specs.Contract.{StandsIn};
ghost use Rattle.queue_guard.specs.Places.{queue_words};
ghost use Rattle.range_queue.specs.Looks.{ticket_of};
ghost use Rattle.range_queue.specs.Settled.{IsToldBy};
ghost use Rattle.range_queue.specs.Tries.{IsKept, IsQueueTry, IsTried, LooksOnce, TriesNext, refused_by};

use crate::announcing::withdraw;
use crate::answers::NotYet;
use crate::looking::{Met, look};
use crate::table::{QueueSeat, QueueTable};
use lock_core::{Guard, Held, Mode, Range};
use queue_guard::Queued;
use range_rw::{NotHeld, RangeTable, Seat};

/// A try of the lock that was refused.
fn refused_by(tried: Result<(), NotHeld>) -> Result<(), NotYet>
    ensures { result ≡ refused_by tried }
{
    match tried {
        Ok(()) => Ok(()),
        Err(why) => Err(NotYet::Refused(why)),
    }
}

/// Tries the lock once, for the range for which the look is over.
fn try_clear<G: Guard>(
    table: &RangeTable<Queued<G>>,
    seat: &mut Seat<Queued<G>>,
    asked: &Held,
) -> Result<(), NotYet>
    requires table { seat.old.table ≡ table.now.table }
    requires free { seat.old.held ≡ None }
    ensures next { TriesNext asked.now result seat.old seat.new }
    ensures kept { IsKept seat.old seat.new }
    ensures stands { OnOk result (StandsIn table.now.cut asked.now.range seat.new.list) }
    ensures outside { seat.new.scan ≡ None }
{
    let tried = table.try_acquire_uncounted(seat, asked.range, asked.mode);
    refused_by(tried)
}

/// Looks, and tries the lock once if nothing was met. `mine` is the caller's own ticket, if it has one.
pub(crate) fn try_in<G: Guard>(
    table: &RangeTable<Queued<G>>,
    seat: &mut Seat<Queued<G>>,
    asked: &Held,
    mine: Option<u64>,
    seats: u32,
) -> Result<(), NotYet>
    requires table { seat.old.table ≡ table.now.table }
    requires words { queue_words ≤ table.now.client }
    requires free { seat.old.held ≡ None }
    requires seats { (seat.old.pass.seats ≡ seats) × (seats ≤ 16) × (0 < seats) }
    requires mine { ticket_of seat.old.pass.telling ≡ mine }
    requires scan { seat.old.scan ≡ None }
    ensures tried { IsTried asked.now result seat.old seat.new }
    ensures kept { IsKept seat.old seat.new }
    ensures stands { OnOk result (StandsIn table.now.cut asked.now.range seat.new.list) }
    ensures outside { seat.new.scan ≡ None }
{
    match look(table, seat, asked, mine, seats) {
        Some(Met { seat: number, met }) => Err(NotYet::Behind { seat: number, met }),
        None => try_clear(table, seat, asked),
    }
}

/// Looks at the announcements, and tries once to hold the range if it met none to which it gives way. It waits for
/// nobody. The seat is of this table, which has so many seats; it has that number, holds nothing and has no open scan.
/// `mine` is the ticket of its announcement, if it has one, which may be of another range.
/// `Behind` names the announcement that it met, and then no step on the lock was made. `Refused` has the lock's own
/// cause, at a step of this call behind its look. After both the seat's own announcement stands as before; once the
/// range is held, it is taken back.
pub(crate) fn try_acquire<G: Guard>(
    table: &RangeTable<Queued<G>>,
    seat: &mut Seat<Queued<G>>,
    number: u32,
    seats: u32,
    mine: Option<u64>,
    asked: &Held,
) -> Result<(), NotYet>
    requires table { seat.old.table ≡ table.now.table }
    requires words { queue_words ≤ table.now.client }
    requires free { seat.old.held ≡ None }
    requires number { (seat.old.number ≡ number) × (number < 16) }
    requires seats { (seat.old.pass.seats ≡ seats) × (seats ≤ 16) × (0 < seats) }
    requires told { IsToldBy seat.old.pass.telling mine }
    requires scan { seat.old.scan ≡ None }
    ensures tried { IsQueueTry asked.now result seat.old seat.new }
    ensures held { OnOk result (seat.new.held ≡ Some asked.now) }
    ensures free { OnErr result (seat.new.held ≡ None) }
    ensures stands { OnOk result (StandsIn table.now.cut asked.now.range seat.new.list) }
    ensures outside { seat.new.scan ≡ None }
{
    match try_in(table, seat, asked, mine, seats) {
        Ok(()) => {
            withdraw(table, seat, number, mine);
            Ok(())
        }
        Err(why) => Err(why),
    }
}

impl<G: Guard> QueueTable<G> {
    /// Looks at the announcements, and tries once to hold the range if it met none to which it gives way. It waits for
    /// nobody. The seat is of this table and holds nothing; an announcement of its own may be of another range.
    /// `Behind` names the announcement that it met, and then no step on the lock was made. `Refused` has the lock's own
    /// cause, at a step of this call behind its look. After both the seat's own announcement stands as before; once the
    /// range is held, it is taken back.
    pub fn try_acquire(
        &self,
        seat: &mut QueueSeat<G>,
        range: Range,
        mode: Mode,
    ) -> Result<(), NotYet>
        requires table { seat.old.table ≡ self.now.table }
        requires free { seat.old.held ≡ None }
        ensures tried { IsQueueTry (record { range = range; mode = mode }) result seat.old seat.new }
        ensures held { OnOk result (seat.new.held ≡ Some (record { range = range; mode = mode })) }
        ensures free { OnErr result (seat.new.held ≡ None) }
        ensures stands { OnOk result (StandsIn self.now.cut range seat.new.list) }
    {
        let asked = Held { range, mode };
        let _ = self.client;
        let (number, seats, ticket) = (seat.number, seat.seats, seat.ticket);
        match try_acquire(&self.table, &mut seat.seat, number, seats, ticket, &asked) {
            Ok(()) => {
                seat.ticket = None;
                Ok(())
            }
            Err(why) => Err(why),
        }
    }

    /// Looks at the announcements, for a caller that was refused, and says whether it gives way to one. It waits for
    /// nobody, and makes no step on the lock. The seat is of this table and holds nothing.
    pub fn gives_way(&self, seat: &mut QueueSeat<G>, range: Range, mode: Mode) -> bool
        requires table { seat.old.table ≡ self.now.table }
        requires free { seat.old.held ≡ None }
        ensures looked { LooksOnce (record { range = range; mode = mode }) result seat.old seat.new }
    {
        let asked = Held { range, mode };
        let _ = self.client;
        let (seats, ticket) = (seat.seats, seat.ticket);
        match look(&self.table, &mut seat.seat, &asked, ticket, seats) {
            Some(_) => true,
            None => false,
        }
    }
}
