//! A table on which callers queue, and its seats. The lock's table and its seats are inside, and nobody else reaches
//! them. A reader may rely on a seat having no open scan between two calls, and on its announcement standing
//! only while it holds nothing.
ghost use Rattle.std.specs.Prelude.{◌≡◌, ◌+◌, ◌≤◌, ◌^◌, ◌↔◌, IfOk, IfErr, IfSome, IsNone, IsSome, None, Some, [], length, replicate, vec_capacity};
ghost use Rattle.list_cuts.specs.Cut.{list_count};
ghost use Rattle.range_rw.specs.Contract.{AreNewSeatsIn, IsOpenFault, IsRelease, IsSeatCount, first_passes};
ghost use Rattle.queue_guard.specs.Places.{queue_words};
ghost use Rattle.queue_guard.specs.Rule.{first_pass, rested_pass};
ghost use Rattle.queue_laws.specs.declared.places.Telling.TheVariants.{Silent};
ghost use Rattle.range_queue.specs.Looks.{IsBeside};
ghost use Rattle.range_queue.specs.Opening.{AreQuietFrom, first_words};
ghost use Rattle.range_queue.specs.Settled.{IsAnnouncedBy, IsFullCall, IsLeft, IsSameBut, IsToldBy};

use crate::announcing::{announce, withdraw};
use crate::answers::NotAnnounced;
use crate::words::{NEXT, QUEUE_WORDS};
use list_cuts::Cut;
use lock_core::{Guard, Held, Mode, Range};
use queue_guard::Queued;
use range_rw::{MOST_SEATS, OpenFault, RangeTable, Seat};
use std::alloc::{AllocError, Global};
use std::marker::Model;

/// A range lock for up to 16 seats on which callers queue, and client words under the rule of a guard.
#[derive(Drop)]
pub struct QueueTable<G: Guard> {
    pub(crate) table: RangeTable<Queued<G>>,
    /// How many client words the guard has.
    pub(crate) client: u32,
}

impl<G: Guard> Model for QueueTable<G> {
    ghost use Rattle.std.specs.Prelude.{◌≡◌, ◌+◌, ◌≤◌, ◌^◌};
    ghost use Rattle.range_rw.specs.Contract.{TableShape};
    ghost use Rattle.queue_guard.specs.Places.{queue_words};

    ghost Value = { TableShape };

    ghost view = { λ t. record { table = t.table.table; seats = t.table.seats; client = t.client; cut = t.table.cut } };

    ghost invariant = { λ t. (t.table.client ≡ queue_words + t.client) × (t.client ≤ 2 ^ 20) };
}

/// A seat of such a table.
#[derive(Drop)]
pub struct QueueSeat<G: Guard> {
    pub(crate) seat: Seat<Queued<G>>,
    /// Its number, counted from 0.
    pub(crate) number: u32,
    /// How many seats the table has.
    pub(crate) seats: u32,
    /// The ticket of its announcement, while that stands.
    pub(crate) ticket: Option<u64>,
}

impl<G: Guard> Model for QueueSeat<G> {
    ghost use Rattle.range_rw.specs.Contract.{SeatState};
    ghost use Rattle.queue_guard.specs.declared.passes.QueuePass.{QueuePass};
    ghost use Rattle.range_queue.specs.Settled.{IsSettled};

    ghost Value = { SeatState (QueuePass G.Pass) };

    ghost view = { λ s. s.seat };

    ghost invariant = { λ s. IsSettled s.number s.seats s.ticket s.seat };
}

/// The words of the queue at its opening, and behind them those of the guard: nobody is counted, and the next ticket is
/// the first.
fn words_for(alloc: Global, seats: u32, client: &[u64]) -> Result<Vec<u64>, AllocError>
    ensures { IfOk result (λ words. words.items ≡ first_words seats client.now) }
{
    let mut words = Vec::new(alloc);
    words.resize(QUEUE_WORDS as usize, 0)?;
    words[0] = u64::from(seats);
    words[NEXT as usize] = 1;
    words.extend_from_slice(client)?;
    Ok(words)
}

/// Makes seats of those of a new table of the lock, in their order. There is room for them.
fn seat_all<G: Guard>(mut inner: Vec<Seat<Queued<G>>>, seats: u32, made: &mut Vec<QueueSeat<G>>)
    requires empty { made.old.items ≡ [] }
    requires room { length inner.items ≤ vec_capacity made.old }
    requires few { (length inner.items ≡ seats) × (seats ≤ 16) }
    requires quiet { AreQuietFrom seats 0 inner.items }
    ensures { made.new.items ≡ inner.items }
{
    let mut number = 0;
    'all: while !inner.is_empty() {
        let seat = inner.remove(0);
        made.push_reserved(QueueSeat {
            seat,
            number,
            seats,
            ticket: None,
        });
        number += 1;
    }
}

impl<G: Guard> QueueTable<G> {
    fn open_at(
        alloc: Global,
        seats: u32,
        cut: Cut,
        client: &[u64],
    ) -> Result<(QueueTable<G>, Vec<QueueSeat<G>>), AllocError>
        requires seats { IsSeatCount seats }
        requires clients { length client.now + queue_words ≤ 2 ^ 20 }
        requires rule { G.holds (replicate seats None) client.now (first_passes (G.first client.now) 0 seats) }
        ensures shape { IfOk result (λ r. (r.0.seats ≡ seats) × (r.0.client ≡ length client.now) × (r.0.cut ≡ cut)) }
        ensures seats { IfOk result (λ r. (length r.1.items ≡ seats)
            × AreNewSeatsIn (list_count cut) r.0.table (first_pass G.first (first_words seats client.now)) r.1.items) }
    {
        let words = words_for(alloc, seats, client)?;
        let mut made = Vec::with_capacity(alloc, seats as usize)?;
        match RangeTable::open_cut(alloc, seats, cut, words.as_slice()) {
            Ok((table, inner)) => {
                seat_all(inner, seats, &mut made);
                let client = client.len() as u32;
                Ok((QueueTable { table, client }, made))
            }
            Err(_) => Err(AllocError),
        }
    }

    /// A table of that many seats, from 1 to 16, over these client words of the guard, and its seats in order of their
    /// numbers, from 0 on. The client words are at most 2^20 less 152, and meet the guard with no grant and the passes
    /// of all seats at the opening. The ranges stand in the lists of the cut.
    /// `Seats` comes exactly where the number is 0 or above 16.
    pub fn open_cut(
        alloc: Global,
        seats: u32,
        cut: Cut,
        client: &[u64],
    ) -> Result<(QueueTable<G>, Vec<QueueSeat<G>>), OpenFault>
        requires clients { length client.now + queue_words ≤ 2 ^ 20 }
        requires rule { IsSeatCount seats → G.holds (replicate seats None) client.now (first_passes (G.first client.now) 0 seats) }
        ensures count { IfOk result (λ _. IsSeatCount seats) }
        ensures refused { IfErr result (IsOpenFault seats) }
        ensures shape { IfOk result (λ r. (r.0.seats ≡ seats) × (r.0.client ≡ length client.now) × (r.0.cut ≡ cut)) }
        ensures seats { IfOk result (λ r. (length r.1.items ≡ seats)
            × AreNewSeatsIn (list_count cut) r.0.table (first_pass G.first (first_words seats client.now)) r.1.items) }
    {
        if seats == 0 || seats > MOST_SEATS {
            return Err(OpenFault::Seats(seats));
        }
        match QueueTable::open_at(alloc, seats, cut, client) {
            Ok(opened) => Ok(opened),
            Err(_) => Err(OpenFault::Memory),
        }
    }

    /// Announces the range that the seat waits for, and returns its ticket. From then on each other seat whose look
    /// begins later gives way to it, if what it asks for conflicts and it has no older ticket. The seat is of this
    /// table, holds nothing and has announced nothing. The announcement stands until the seat holds a range or
    /// withdraws.
    /// `Again` comes where another seat drew that ticket first, and `Full` where a load of this call found none left.
    /// Then nothing is announced.
    pub fn announce(
        &self,
        seat: &mut QueueSeat<G>,
        range: Range,
        mode: Mode,
    ) -> Result<u64, NotAnnounced>
        requires table { seat.old.table ≡ self.now.table }
        requires free { seat.old.held ≡ None }
        requires silent { seat.old.pass.telling ≡ Silent }
        ensures beside { IsBeside seat.old seat.new }
        ensures same { IsSameBut seat.old.pass seat.new.pass }
        ensures told { IsAnnouncedBy (record { range = range; mode = mode }) result seat.new.pass.telling }
        ensures full { IfErr result (λ why. IsFullCall why seat.old seat.new) }
    {
        let asked = Held { range, mode };
        let _ = self.client;
        let number = seat.number;
        match announce(&self.table, &mut seat.seat, number, &asked) {
            Ok(ticket) => {
                seat.ticket = Some(ticket);
                Ok(ticket)
            }
            Err(why) => Err(why),
        }
    }

    /// Takes the seat's announcement back, if it has one. The seat is of this table.
    pub fn withdraw(&self, seat: &mut QueueSeat<G>)
        requires table { seat.old.table ≡ self.now.table }
        ensures left { IsLeft seat.old seat.new }
    {
        let _ = self.client;
        let (number, ticket) = (seat.number, seat.ticket);
        withdraw(&self.table, &mut seat.seat, number, ticket);
        seat.ticket = None;
    }

    /// The ticket of the seat's announcement; None where it has announced nothing. The seat is of this table.
    pub fn ticket(&self, seat: &QueueSeat<G>) -> Option<u64>
        requires table { seat.now.table ≡ self.now.table }
        ensures ticket { IsToldBy seat.now.pass.telling result }
    {
        seat.ticket
    }

    /// Gives the held range back, in one step or two. The seat is of this table, and what the guard has it know is at
    /// rest.
    pub fn release(&self, seat: &mut QueueSeat<G>)
        requires table { seat.old.table ≡ self.now.table }
        requires holds { IsSome seat.old.held }
        requires rest { G.is_at_rest seat.old.pass.inner }
        ensures release { IsRelease (rested_pass G.rested) seat.old seat.new }
    {
        let _ = seat.ticket;
        self.table.release_uncounted(&mut seat.seat);
    }

    /// The range that the seat holds, and how; None where it holds nothing. The seat is of this table.
    pub fn held(&self, seat: &QueueSeat<G>) -> Option<(Range, Mode)>
        requires table { seat.now.table ≡ self.now.table }
        ensures some { IfSome result (λ r. seat.now.held ≡ Some (record { range = r.0; mode = r.1 })) }
        ensures none { IsNone result ↔ (seat.now.held ≡ None) }
    {
        self.table.held(&seat.seat)
    }
}
