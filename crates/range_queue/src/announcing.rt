//! How a seat announces the range that it waits for, and takes the announcement back. It counts itself, writes the two
//! ends of its range, draws a ticket and shows it. A reader may rely on these calls making steps on the queue's words
//! alone.
ghost use Rattle.std.specs.Prelude.{◌≡◌, ◌<◌, ◌≤◌, ◌^◌, None, Some, IfErr, MatchResult};
ghost use Rattle.lock_core.specs.Words.{hi_word};
ghost use Rattle.queue_laws.specs.declared.places.Telling.TheVariants.{Silent, Counted, Drawn};
ghost use Rattle.queue_guard.specs.Places.{queue_words};
ghost use Rattle.queue_guard.specs.Acts.{both_ends, with_telling};
ghost use Rattle.range_queue.specs.Looks.{IsBeside};
ghost use Rattle.range_queue.specs.Settled.{HasDrawn, HasNoneLeft, IsAnnouncedBy, IsEntered, IsFullCall, IsSameBut, IsToldBy};

use crate::answers::NotAnnounced;
use crate::telling::{count_in, count_out, draw, glance, hide, show, write_hi, write_lo};
use lock_core::{Guard, Held, Mode};
use queue_guard::Queued;
use range_rw::{RangeTable, Seat};

/// From this ticket on none is drawn: 2^62.
const LAST_TICKET: u64 = 4_611_686_018_427_387_904;

/// The word of a range's higher end and a mode.
fn hi_word(asked: &Held) -> u64
    ensures { result ≡ hi_word asked.now.range.hi asked.now.mode }
{
    let hi = asked.range.hi();
    match asked.mode {
        Mode::Reader => 2 * hi,
        Mode::Writer => 2 * hi + 1,
    }
}

/// Counts the seat and writes the ends of its range.
fn enter<G: Guard>(
    table: &RangeTable<Queued<G>>,
    seat: &mut Seat<Queued<G>>,
    number: u32,
    asked: &Held,
)
    requires table { seat.old.table ≡ table.now.table }
    requires words { queue_words ≤ table.now.client }
    requires number { (seat.old.number ≡ number) × (number < 16) }
    requires silent { seat.old.pass.telling ≡ Silent }
    ensures beside { IsBeside seat.old seat.new }
    ensures entered { IsEntered asked.now seat.old.pass seat.new.pass }
{
    count_in(table, seat);
    write_lo(table, seat, number, asked.range.lo());
    let hi = hi_word(asked);
    write_hi(table, seat, number, hi);
}

/// Draws the next ticket, if no other seat draws it first and there is one left.
fn draw_next<G: Guard>(
    table: &RangeTable<Queued<G>>,
    seat: &mut Seat<Queued<G>>,
) -> Result<u64, NotAnnounced>
    requires table { seat.old.table ≡ table.now.table }
    requires words { queue_words ≤ table.now.client }
    requires counted { seat.old.pass.telling ≡ Counted }
    ensures beside { IsBeside seat.old seat.new }
    ensures drawn { HasDrawn result seat.old.pass seat.new.pass }
    ensures full { IfErr result (λ why. HasNoneLeft why seat.old seat.new) }
{
    let ticket = glance(table, seat);
    let full = ticket >= LAST_TICKET;
    if full {
        return Err(NotAnnounced::Full);
    }
    match draw(table, seat, ticket) {
        Ok(()) => Ok(ticket),
        Err(found) => Err(NotAnnounced::Again {
            expected: ticket,
            found,
        }),
    }
}

/// Announces the range that the seat waits for, and returns its ticket. From then on each other seat whose look begins
/// later gives way to it, if what it asks for conflicts and it has no older ticket. The seat is of this table, has that
/// number and has announced nothing. The announcement stands until the seat holds a range or withdraws.
/// `Again` comes where another seat drew that ticket first, and `Full` where a load of this call found none left. Then
/// nothing is announced.
pub(crate) fn announce<G: Guard>(
    table: &RangeTable<Queued<G>>,
    seat: &mut Seat<Queued<G>>,
    number: u32,
    asked: &Held,
) -> Result<u64, NotAnnounced>
    requires table { seat.old.table ≡ table.now.table }
    requires words { queue_words ≤ table.now.client }
    requires number { (seat.old.number ≡ number) × (number < 16) }
    requires silent { seat.old.pass.telling ≡ Silent }
    ensures beside { IsBeside seat.old seat.new }
    ensures same { IsSameBut seat.old.pass seat.new.pass }
    ensures told { IsAnnouncedBy asked.now result seat.new.pass.telling }
    ensures full { IfErr result (λ why. IsFullCall why seat.old seat.new) }
{
    enter(table, seat, number, asked);
    match draw_next(table, seat) {
        Ok(ticket) => {
            show(table, seat, number, ticket, asked);
            Ok(ticket)
        }
        Err(why) => {
            count_out(table, seat);
            Err(why)
        }
    }
}

/// Takes the seat's announcement back; `mine` is its ticket, if it has one. The seat is of this table and has that
/// number.
pub(crate) fn withdraw<G: Guard>(
    table: &RangeTable<Queued<G>>,
    seat: &mut Seat<Queued<G>>,
    number: u32,
    mine: Option<u64>,
)
    requires table { seat.old.table ≡ table.now.table }
    requires words { queue_words ≤ table.now.client }
    requires number { (seat.old.number ≡ number) × (number < 16) }
    requires told { IsToldBy seat.old.pass.telling mine }
    ensures beside { IsBeside seat.old seat.new }
    ensures pass { seat.new.pass ≡ with_telling seat.old.pass Silent }
{
    match mine {
        Some(_) => {
            hide(table, seat, number);
            count_out(table, seat);
        }
        None => {}
    }
}
