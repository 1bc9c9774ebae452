//! The steps of a look, each one load of a client word. A reader may rely on what the seat knows after each being what
//! `IsAct` of `queue_guard` says of the value that was found.
ghost use Rattle.std.specs.Prelude.{◌≡◌, ◌+◌, ◌*◌, ◌/◌, ◌<◌, ◌≤◌, None, Some};
ghost use Rattle.lock_core.specs.Range.{IsRange};
ghost use Rattle.range_rw.specs.Contract.{IsClientCall};
ghost use Rattle.queue_laws.specs.declared.places.Look.TheVariants.{At};
ghost use Rattle.queue_guard.specs.Places.{count_place, ticket_place, lo_place, hi_place, queue_words};
ghost use Rattle.queue_guard.specs.Acts.{look_begun, look_noted, look_judged, with_begun, with_look, with_read, both_ends};

use crate::meaning::{Asking, Begins, Judges, Notes, ReadsHi, ReadsLo};
use lock_core::{Guard, Held};
use queue_guard::Queued;
use range_rw::{RangeTable, Seat};
use std::marker::Brand;

/// The place of the word that counts the seats that have told something.
pub(crate) const COUNT: u32 = 8;

/// The place of the next ticket.
pub(crate) const NEXT: u32 = 16;

/// The place of the ticket of seat 0. Each seat has eight words; behind its ticket stand the two ends of its range.
pub(crate) const TICKETS: u32 = 24;

/// How many words the queue has, in front of those of the guard behind it.
pub(crate) const QUEUE_WORDS: u32 = 152;

fn begin_for<G: Guard, N: Asking>(
    table: &RangeTable<Queued<G>>,
    seat: &mut Seat<Queued<G>>,
    asked: &Held,
) -> u64
    requires noted { N.asked ≡ asked.now }
    requires table { seat.old.table ≡ table.now.table }
    requires words { queue_words ≤ table.now.client }
    requires free { seat.old.held ≡ None }
    ensures call { IsClientCall seat.old count_place seat.new }
    ensures pass { seat.new.pass ≡ with_begun seat.old.pass (look_begun asked.now result) }
{
    let _ = asked;
    table.load_as_uncounted::<Begins<N>>(seat, COUNT)
}

/// Loads the count, by which a look for this range begins.
pub(crate) fn begin<G: Guard>(
    table: &RangeTable<Queued<G>>,
    seat: &mut Seat<Queued<G>>,
    asked: &Held,
) -> u64
    requires table { seat.old.table ≡ table.now.table }
    requires words { queue_words ≤ table.now.client }
    requires free { seat.old.held ≡ None }
    ensures call { IsClientCall seat.old count_place seat.new }
    ensures pass { seat.new.pass ≡ with_begun seat.old.pass (look_begun asked.now result) }
{
    begin_for::<G, Brand>(table, seat, asked)
}

/// Loads the ticket of seat k, at which the look is.
pub(crate) fn note<G: Guard>(
    table: &RangeTable<Queued<G>>,
    seat: &mut Seat<Queued<G>>,
    asked: &Held,
    k: u32,
) -> u64
    requires table { seat.old.table ≡ table.now.table }
    requires words { queue_words ≤ table.now.client }
    requires free { seat.old.held ≡ None }
    requires look { seat.old.pass.look ≡ At asked.now k None }
    requires there { (k < seat.old.pass.seats) × (k < 16) }
    ensures call { IsClientCall seat.old (ticket_place k) seat.new }
    ensures pass { seat.new.pass ≡ with_look seat.old.pass (look_noted seat.old.pass.seats seat.old.pass.telling asked.now k result) }
{
    let _ = asked;
    table.load_as_uncounted::<Notes>(seat, TICKETS + 8 * k)
}

/// Loads the lower end of the announcement of seat k, whose ticket was noted.
pub(crate) fn read_lo<G: Guard>(
    table: &RangeTable<Queued<G>>,
    seat: &mut Seat<Queued<G>>,
    asked: &Held,
    k: u32,
    ticket: u64,
) -> u64
    requires table { seat.old.table ≡ table.now.table }
    requires words { queue_words ≤ table.now.client }
    requires look { seat.old.pass.look ≡ At asked.now k (Some ticket) }
    requires there { (k < seat.old.pass.seats) × (k < 16) }
    ensures call { IsClientCall seat.old (lo_place k) seat.new }
    ensures pass { seat.new.pass ≡ with_read seat.old.pass (record { lo = Some result; hi = None }) }
{
    let _ = asked;
    let _ = ticket;
    table.load_as_uncounted::<ReadsLo>(seat, TICKETS + 1 + 8 * k)
}

/// Loads its higher end, with the mode.
pub(crate) fn read_hi<G: Guard>(
    table: &RangeTable<Queued<G>>,
    seat: &mut Seat<Queued<G>>,
    asked: &Held,
    k: u32,
    ticket: u64,
) -> u64
    requires table { seat.old.table ≡ table.now.table }
    requires words { queue_words ≤ table.now.client }
    requires look { seat.old.pass.look ≡ At asked.now k (Some ticket) }
    requires there { (k < seat.old.pass.seats) × (k < 16) }
    ensures call { IsClientCall seat.old (hi_place k) seat.new }
    ensures pass { seat.new.pass ≡ with_read seat.old.pass (record { lo = seat.old.pass.read.lo; hi = Some result }) }
{
    let _ = asked;
    let _ = ticket;
    table.load_as_uncounted::<ReadsHi>(seat, TICKETS + 2 + 8 * k)
}

/// Loads its ticket again. If it is still the one that was noted, the two ends are those of one announcement.
pub(crate) fn judge<G: Guard>(
    table: &RangeTable<Queued<G>>,
    seat: &mut Seat<Queued<G>>,
    asked: &Held,
    k: u32,
    ticket: u64,
    lo: u64,
    hi: u64,
) -> u64
    requires table { seat.old.table ≡ table.now.table }
    requires words { queue_words ≤ table.now.client }
    requires free { seat.old.held ≡ None }
    requires look { seat.old.pass.look ≡ At asked.now k (Some ticket) }
    requires read { seat.old.pass.read ≡ both_ends lo hi }
    requires there { (k < seat.old.pass.seats) × (k < 16) }
    ensures call { IsClientCall seat.old (ticket_place k) seat.new }
    ensures pass { seat.new.pass ≡ with_look seat.old.pass (look_judged seat.old.pass.seats asked.now k ticket lo hi result) }
    ensures range { result ≡ ticket → IsRange lo (hi / 2) }
{
    let _ = asked;
    let _ = (ticket, lo, hi);
    table.load_as_uncounted::<Judges>(seat, TICKETS + 8 * k)
}
