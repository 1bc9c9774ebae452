//! A table with its event count, and a seat in both. Between two calls a seat has announced nothing and isn't counted.
ghost use Rattle.std.specs.Prelude.{◌≡◌, ◌↔◌, None, Some, IfSome, IsNone, IsSome, OnOk, OnErr};
ghost use Rattle.event_count.specs.Calls.{Notifies};
ghost use Rattle.range_rw.specs.Contract.{IsRelease, StandsIn};
ghost use Rattle.queue_guard.specs.Rule.{rested_pass};
ghost use Rattle.range_wait.specs.Moves.{IsOneTry};

use crate::trying::try_awake;
use event_count::{EventCount, EventSeat, Notified};
use lock_core::{Guard, Mode, Range};
use range_queue::{NotYet, QueueSeat, QueueTable};
use std::marker::Model;

/// A range lock on which callers queue and sleep.
#[derive(Drop)]
pub struct WaitTable<G: Guard> {
    pub(crate) table: QueueTable<G>,
    pub(crate) events: EventCount,
}

impl<G: Guard> Model for WaitTable<G> {
    ghost use Rattle.range_wait.specs.Seats.{WaitShape};

    ghost Value = { WaitShape };

    ghost view = { λ t. record { lock = t.table; events = t.events } };
}

/// A seat of such a table.
#[derive(Drop)]
pub struct WaitSeat<G: Guard> {
    pub(crate) seat: QueueSeat<G>,
    pub(crate) event: EventSeat,
}

impl<G: Guard> Model for WaitSeat<G> {
    ghost use Rattle.std.specs.Prelude.{◌≡◌, false};
    ghost use Rattle.queue_laws.specs.declared.places.Telling.TheVariants.{Silent};
    ghost use Rattle.range_wait.specs.Seats.{WaitState};

    ghost Value = { WaitState G.Pass };

    ghost view = { λ s. record { lock = s.seat; event = s.event } };

    ghost invariant = { λ s. (s.seat.pass.telling ≡ Silent) × (s.event.counted ≡ false) };
}

impl<G: Guard> WaitTable<G> {
    /// Looks at the announcements, and tries once to hold the range if it met none to which it gives way. It waits for
    /// nobody. The seat is of this table and holds nothing. `Behind` names the announcement that it met, and then no
    /// step on the lock was made; `Refused` has the lock's own cause. A look after such a refusal says whether the
    /// caller gives way by then, and if so those who are counted are woken: its try may have stood in their way.
    pub fn try_acquire(
        &self,
        seat: &mut WaitSeat<G>,
        range: Range,
        mode: Mode,
    ) -> Result<(), NotYet>
        requires lock { seat.old.lock.table ≡ self.now.lock.table }
        requires events { seat.old.event.table ≡ self.now.events.table }
        requires free { seat.old.lock.held ≡ None }
        ensures lock { seat.new.lock.table ≡ seat.old.lock.table }
        ensures events { seat.new.event.table ≡ seat.old.event.table }
        ensures tried { IsOneTry (record { range = range; mode = mode }) result seat.old seat.new }
        ensures held { OnOk result (seat.new.lock.held ≡ Some (record { range = range; mode = mode })) }
        ensures stands { OnOk result (StandsIn self.now.lock.cut range seat.new.lock.list) }
        ensures free { OnErr result (seat.new.lock.held ≡ None) }
    {
        try_awake(
            &self.table,
            &mut seat.seat,
            &self.events,
            &mut seat.event,
            range,
            mode,
        )
    }

    /// Gives the held range back, and then wakes those who are counted: one load where nobody is. The seat is of this
    /// table, and what the guard has it know is at rest.
    pub fn release(&self, seat: &mut WaitSeat<G>) -> Notified
        requires lock { seat.old.lock.table ≡ self.now.lock.table }
        requires events { seat.old.event.table ≡ self.now.events.table }
        requires holds { IsSome seat.old.lock.held }
        requires rest { G.is_at_rest seat.old.lock.pass.inner }
        ensures release { IsRelease (rested_pass G.rested) seat.old.lock seat.new.lock }
        ensures events { seat.new.event.table ≡ seat.old.event.table }
        ensures notify { Notifies seat.old.event.steps result seat.new.event.steps }
    {
        self.table.release(&mut seat.seat);
        self.events.notify(&mut seat.event)
    }

    /// The range that the seat holds, and how; None where it holds nothing. The seat is of this table.
    pub fn held(&self, seat: &WaitSeat<G>) -> Option<(Range, Mode)>
        requires lock { seat.now.lock.table ≡ self.now.lock.table }
        ensures some { IfSome result (λ r. seat.now.lock.held ≡ Some (record { range = r.0; mode = r.1 })) }
        ensures none { IsNone result ↔ (seat.now.lock.held ≡ None) }
    {
        self.table.held(&seat.seat)
    }
}
