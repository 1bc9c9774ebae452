//! The steps by which a seat announces a range and takes the announcement back, each one step on a client word. A
//! reader may rely on what the seat has told after each, and on nothing else that it knows being changed.
ghost use Rattle.std.specs.Prelude.{◌≡◌, ◌≢◌, ◌+◌, ◌<◌, ◌≤◌, ◌^◌, None, Some, true, false, MatchResult};
ghost use Rattle.lock_core.specs.Words.{hi_word};
ghost use Rattle.range_rw.specs.Contract.{IsClientCall};
ghost use Rattle.queue_laws.specs.declared.places.Telling.TheVariants.{Silent, Counted, Drawn, Shown};
ghost use Rattle.queue_guard.specs.Places.{count_place, next_place, ticket_place, lo_place, hi_place, queue_words};
ghost use Rattle.queue_guard.specs.Acts.{is_shown, both_ends, with_own, with_telling};
ghost use Rattle.range_queue.specs.Settled.{IsNextAt};

use crate::meaning::{Counts, Draws, Glances, Hides, Shows, Uncounts, WritesHi, WritesLo};
use crate::words::{COUNT, NEXT, TICKETS};
use lock_core::{Guard, Held};
use queue_guard::Queued;
use range_rw::{RangeTable, Seat};

/// Stores the lower end of the seat's own range.
pub(crate) fn write_lo<G: Guard>(
    table: &RangeTable<Queued<G>>,
    seat: &mut Seat<Queued<G>>,
    number: u32,
    value: u64,
)
    requires table { seat.old.table ≡ table.now.table }
    requires words { queue_words ≤ table.now.client }
    requires number { (seat.old.number ≡ number) × (number < 16) }
    requires hidden { is_shown seat.old.pass.telling ≡ false }
    ensures call { IsClientCall seat.old (lo_place number) seat.new }
    ensures pass { seat.new.pass ≡ with_own seat.old.pass (record { lo = Some value; hi = seat.old.pass.own.hi }) }
{
    table.store_as_uncounted::<WritesLo>(seat, TICKETS + 1 + 8 * number, value);
}

/// Stores its higher end, with the mode.
pub(crate) fn write_hi<G: Guard>(
    table: &RangeTable<Queued<G>>,
    seat: &mut Seat<Queued<G>>,
    number: u32,
    value: u64,
)
    requires table { seat.old.table ≡ table.now.table }
    requires words { queue_words ≤ table.now.client }
    requires number { (seat.old.number ≡ number) × (number < 16) }
    requires hidden { is_shown seat.old.pass.telling ≡ false }
    ensures call { IsClientCall seat.old (hi_place number) seat.new }
    ensures pass { seat.new.pass ≡ with_own seat.old.pass (record { lo = seat.old.pass.own.lo; hi = Some value }) }
{
    table.store_as_uncounted::<WritesHi>(seat, TICKETS + 2 + 8 * number, value);
}

/// Counts the seat.
pub(crate) fn count_in<G: Guard>(table: &RangeTable<Queued<G>>, seat: &mut Seat<Queued<G>>)
    requires table { seat.old.table ≡ table.now.table }
    requires words { queue_words ≤ table.now.client }
    requires silent { seat.old.pass.telling ≡ Silent }
    ensures call { IsClientCall seat.old count_place seat.new }
    ensures pass { seat.new.pass ≡ with_telling seat.old.pass Counted }
{
    table.add_as_uncounted::<Counts>(seat, COUNT, 1);
}

/// Counts the seat out.
pub(crate) fn count_out<G: Guard>(table: &RangeTable<Queued<G>>, seat: &mut Seat<Queued<G>>)
    requires table { seat.old.table ≡ table.now.table }
    requires words { queue_words ≤ table.now.client }
    requires counted { seat.old.pass.telling ≡ Counted }
    ensures call { IsClientCall seat.old count_place seat.new }
    ensures pass { seat.new.pass ≡ with_telling seat.old.pass Silent }
{
    table.add_as_uncounted::<Uncounts>(seat, COUNT, u64::MAX);
}

/// Loads the next ticket.
pub(crate) fn glance<G: Guard>(table: &RangeTable<Queued<G>>, seat: &mut Seat<Queued<G>>) -> u64
    requires table { seat.old.table ≡ table.now.table }
    requires words { queue_words ≤ table.now.client }
    ensures call { IsClientCall seat.old next_place seat.new }
    ensures pass { seat.new.pass ≡ seat.old.pass }
    ensures found { IsNextAt result seat.old }
{
    table.load_as_uncounted::<Glances>(seat, NEXT)
}

/// Draws the ticket, if it is still the next one. Err has the one that is.
pub(crate) fn draw<G: Guard>(
    table: &RangeTable<Queued<G>>,
    seat: &mut Seat<Queued<G>>,
    ticket: u64,
) -> Result<(), u64>
    requires table { seat.old.table ≡ table.now.table }
    requires words { queue_words ≤ table.now.client }
    requires counted { seat.old.pass.telling ≡ Counted }
    requires low { ticket < 2 ^ 62 }
    ensures call { IsClientCall seat.old next_place seat.new }
    ensures pass { MatchResult result (λ _. seat.new.pass ≡ with_telling seat.old.pass (Drawn ticket))
        (λ found. (found ≢ ticket) × (seat.new.pass ≡ with_telling seat.old.pass Counted)) }
{
    table.exchange_as_uncounted::<Draws>(seat, NEXT, ticket, ticket + 1)
}

/// Shows the ticket that was drawn, with the range whose ends were written.
pub(crate) fn show<G: Guard>(
    table: &RangeTable<Queued<G>>,
    seat: &mut Seat<Queued<G>>,
    number: u32,
    ticket: u64,
    held: &Held,
)
    requires table { seat.old.table ≡ table.now.table }
    requires words { queue_words ≤ table.now.client }
    requires number { (seat.old.number ≡ number) × (number < 16) }
    requires drawn { seat.old.pass.telling ≡ Drawn ticket }
    requires ends { seat.old.pass.own ≡ both_ends held.now.range.lo (hi_word held.now.range.hi held.now.mode) }
    ensures call { IsClientCall seat.old (ticket_place number) seat.new }
    ensures pass { seat.new.pass ≡ with_telling seat.old.pass (Shown (record { ticket = ticket; held = held.now })) }
{
    let _ = held.range.lo();
    table.store_as_uncounted::<Shows>(seat, TICKETS + 8 * number, ticket);
}

/// Takes the announcement back.
pub(crate) fn hide<G: Guard>(table: &RangeTable<Queued<G>>, seat: &mut Seat<Queued<G>>, number: u32)
    requires table { seat.old.table ≡ table.now.table }
    requires words { queue_words ≤ table.now.client }
    requires number { (seat.old.number ≡ number) × (number < 16) }
    requires shown { is_shown seat.old.pass.telling ≡ true }
    ensures call { IsClientCall seat.old (ticket_place number) seat.new }
    ensures pass { seat.new.pass ≡ with_telling seat.old.pass Counted }
{
    table.store_as_uncounted::<Hides>(seat, TICKETS + 8 * number, 0);
}
