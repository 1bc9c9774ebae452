//! A look at the announcements: one load if nobody is counted, and otherwise a ticket of each seat; of an older one the
//! two ends and the ticket again. A reader may rely on the look being over for just that range where nothing was met.
ghost use Rattle.std.specs.Prelude.{◌≡◌, ◌+◌, ◌*◌, ◌/◌, ◌%◌, ◌<◌, ◌≤◌, None, Some, IfSome, true};
ghost use Rattle.lock_core.specs.Range.{IsRange};
ghost use Rattle.queue_laws.specs.Machine.{conflicts};
ghost use Rattle.queue_laws.specs.declared.places.Look.TheVariants.{At};
ghost use Rattle.queue_guard.specs.Places.{queue_words, held_from};
ghost use Rattle.range_queue.specs.Looks.{GivesWay, IsLast, IsLooking, MeetsOne, is_noted, look_behind, look_ended, look_from, met_by, older_than, ticket_of};

use crate::words::{begin, judge, note, read_hi, read_lo};
use lock_core::{Guard, Held, Mode, Range};
use queue_guard::Queued;
use queue_laws::Announcement;
use range_rw::{RangeTable, Seat};

/// An announcement that a look met, with its seat.
#[derive(Drop)]
pub(crate) struct Met {
    pub(crate) seat: u32,
    pub(crate) met: Announcement,
}

/// Whether a ticket is older than the caller's own, if it has one.
fn is_older(ticket: u64, mine: Option<u64>) -> bool
    ensures { result ≡ older_than ticket mine }
{
    match mine {
        None => true,
        Some(own) => ticket < own,
    }
}

/// Whether a ticket word shows an announcement that is older than the caller's own, if it has one.
fn is_noted(ticket: u64, mine: Option<u64>) -> bool
    ensures { result ≡ is_noted ticket mine }
{
    if ticket == 0 {
        return false;
    }
    is_older(ticket, mine)
}

/// Whether a range with that mode conflicts with the one that two words say.
fn conflicts_with(asked: &Held, lo: u64, hi: u64) -> bool
    ensures { result ≡ conflicts asked.now (held_from lo hi) }
{
    let overlap = asked.range.lo() < hi / 2 && lo < asked.range.hi();
    overlap && (asked.mode == Mode::Writer || hi % 2 == 1)
}

/// The range and the mode of two words.
fn read_held(lo: u64, hi: u64) -> Held
    requires { IsRange lo (hi / 2) }
    ensures { result ≡ held_from lo hi }
{
    let Ok(range) = Range::of(lo, hi / 2) else {
        unreachable!()
    };
    let mode = if hi % 2 == 1 {
        Mode::Writer
    } else {
        Mode::Reader
    };
    Held { range, mode }
}

/// The announcement that the loads of a ticket, the two ends and the ticket again show, if the caller gives way to it.
fn met_by(asked: &Held, ticket: u64, lo: u64, hi: u64, again: u64) -> Option<Announcement>
    requires { again ≡ ticket → IsRange lo (hi / 2) }
    ensures is { result ≡ met_by asked.now ticket lo hi again }
    ensures some { IfSome result (λ a. (a.ticket ≡ ticket) × (conflicts asked.now a.held ≡ true)) }
{
    if again != ticket {
        return None;
    }
    if !conflicts_with(asked, lo, hi) {
        return None;
    }
    let held = read_held(lo, hi);
    Some(Announcement { ticket, held })
}

/// Judges the announcement of seat k whose ticket was noted. None passes on.
fn judge_noted<G: Guard>(
    table: &RangeTable<Queued<G>>,
    seat: &mut Seat<Queued<G>>,
    asked: &Held,
    k: u32,
    ticket: u64,
) -> Option<Announcement>
    requires table { seat.old.table ≡ table.now.table }
    requires words { queue_words ≤ table.now.client }
    requires free { seat.old.held ≡ None }
    requires look { seat.old.pass.look ≡ At asked.now k (Some ticket) }
    requires there { (k < seat.old.pass.seats) × (k < 16) }
    ensures looking { IsLooking 0 seat.old seat.new }
    ensures look { seat.new.pass.look ≡ look_behind seat.old.pass.seats asked.now k result }
    ensures met { IfSome result (λ a. (a.ticket ≡ ticket) × (conflicts asked.now a.held ≡ true)) }
    ensures last { IsLast seat.new.trace }
{
    let lo = read_lo(table, seat, asked, k, ticket);
    let hi = read_hi(table, seat, asked, k, ticket);
    let again = judge(table, seat, asked, k, ticket, lo, hi);
    met_by(asked, ticket, lo, hi, again)
}

/// Looks at seat k. None passes on.
fn look_at<G: Guard>(
    table: &RangeTable<Queued<G>>,
    seat: &mut Seat<Queued<G>>,
    asked: &Held,
    mine: Option<u64>,
    k: u32,
) -> Option<Announcement>
    requires table { seat.old.table ≡ table.now.table }
    requires words { queue_words ≤ table.now.client }
    requires free { seat.old.held ≡ None }
    requires look { seat.old.pass.look ≡ At asked.now k None }
    requires there { (k < seat.old.pass.seats) × (k < 16) }
    requires mine { ticket_of seat.old.pass.telling ≡ mine }
    ensures looking { IsLooking 0 seat.old seat.new }
    ensures look { seat.new.pass.look ≡ look_behind seat.old.pass.seats asked.now k result }
    ensures met { IfSome result (GivesWay asked.now mine) }
    ensures last { IsLast seat.new.trace }
{
    let ticket = note(table, seat, asked, k);
    let older = is_noted(ticket, mine);
    if older {
        return judge_noted(table, seat, asked, k, ticket);
    }
    None
}

/// Looks at the seats from 0 on, one after another.
fn look_round<G: Guard>(
    table: &RangeTable<Queued<G>>,
    seat: &mut Seat<Queued<G>>,
    asked: &Held,
    mine: Option<u64>,
    seats: u32,
) -> Option<Met>
    requires table { seat.old.table ≡ table.now.table }
    requires words { queue_words ≤ table.now.client }
    requires free { seat.old.held ≡ None }
    requires look { seat.old.pass.look ≡ look_from seats asked.now 0 }
    requires seats { (seat.old.pass.seats ≡ seats) × (seats ≤ 16) }
    requires mine { ticket_of seat.old.pass.telling ≡ mine }
    requires last { IsLast seat.old.trace }
    ensures looking { IsLooking 0 seat.old seat.new }
    ensures look { seat.new.pass.look ≡ look_ended asked.now result }
    ensures met { MeetsOne asked.now mine seats result }
    ensures last { IsLast seat.new.trace }
{
    let mut k = 0;
    'seats: while k < seats {
        match look_at(table, seat, asked, mine, k) {
            Some(met) => return Some(Met { seat: k, met }),
            None => {}
        }
        k += 1;
    }
    None
}

/// Looks at the announcements, for this range. None says that the look is over, and otherwise it met what the caller
/// gives way to. `mine` is the caller's own ticket, if it has one.
pub(crate) fn look<G: Guard>(
    table: &RangeTable<Queued<G>>,
    seat: &mut Seat<Queued<G>>,
    asked: &Held,
    mine: Option<u64>,
    seats: u32,
) -> Option<Met>
    requires table { seat.old.table ≡ table.now.table }
    requires words { queue_words ≤ table.now.client }
    requires free { seat.old.held ≡ None }
    requires seats { (seat.old.pass.seats ≡ seats) × (seats ≤ 16) × (0 < seats) }
    requires mine { ticket_of seat.old.pass.telling ≡ mine }
    ensures looking { IsLooking 1 seat.old seat.new }
    ensures look { seat.new.pass.look ≡ look_ended asked.now result }
    ensures met { MeetsOne asked.now mine seats result }
    ensures last { IsLast seat.new.trace }
{
    let count = begin(table, seat, asked);
    let nobody = count == 0;
    if nobody {
        return None;
    }
    look_round(table, seat, asked, mine, seats)
}
