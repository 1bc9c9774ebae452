//! Closing a set of touched pages: all seats are joined into one, with which the table is closed, and the pages of its
//! words come back in rising order. The one refusal is that there is no memory; it comes before any seat is joined.
ghost use Rattle.std.specs.Prelude.{◌≡◌, ◌<◌, ◌≤◌, ◌↔◌, ℕ, [], All, Contains, IfOk, IfErr, length, flat_map, sum_by, vec_capacity};
ghost use Rattle.std.specs.Mem.Slots.{IsFull, slots_len, slots_items};
ghost use Rattle.page_touch.specs.Touched.{times};
ghost use Rattle.page_touch.specs.Touches.{IsRising, seat_quota, seat_touched, seat_firsts};
ghost use Rattle.page_touch.specs.Gathering.{pages_in};

use crate::plays::Gathers;
use crate::records::SeatRecord;
use crate::rule::TouchRule;
use crate::table::{Token, TouchSeat, Touches};
use atomic_table::{Closed, Shared};
use std::alloc::Global;
use word_rows::Start;

/// There was no memory to close the set. Nothing has changed, and all comes back.
#[derive(Drop)]
pub struct TouchCloseRefused {
    pub touches: Touches,
    /// The seats, in the order in which they were given.
    pub seats: Vec<TouchSeat>,
}

/// One seat that has what belongs to all of these.
fn join_all(
    shared: &Shared<(), SeatRecord, Start, TouchRule>,
    mut seats: Vec<TouchSeat>,
) -> atomic_table::Seat<(), SeatRecord>
    requires words { 0 < shared.now.table_id.words }
    requires some { 0 < length seats.items }
    requires tables { All (λ s. s.table ≡ shared.now.table_id) seats.items }
    ensures table { (result.table_id ≡ shared.now.table_id) × (result.me.1 ≡ []) }
    ensures quota { result.me.0.quota ≡ sum_by seat_quota seats.items }
    ensures touched { result.me.0.touched ≡ flat_map seat_touched seats.items }
    ensures firsts { result.me.0.firsts ≡ flat_map seat_firsts seats.items }
{
    let TouchSeat { token, .. } = seats.remove(0);
    let Token { seat: mut all } = token;
    'all: while !seats.is_empty() {
        let TouchSeat { token, .. } = seats.remove(0);
        let Token { seat } = token;
        shared.join_seat::<Gathers>(&mut all, seat);
    }
    all
}

/// Fills an empty `Vec` that has room for them with the pages of the words.
fn read_pages(closed: &Closed<(), Global>, room: u32, out: &mut Vec<u64>)
    requires full { IsFull closed.now.words }
    requires words { slots_len closed.now.words ≡ room }
    requires empty { out.old.items ≡ [] }
    requires room { room ≤ vec_capacity out.old }
    ensures pages { out.new.items ≡ pages_in (slots_items closed.now.words) }
    ensures few { length out.new.items ≤ room }
{
    let mut i = 0;
    'words: while i < room {
        let word = closed.word(i as usize);
        if word != 0 {
            out.push_reserved(word - 1);
        }
        i += 1;
    }
}

impl Touches {
    /// Ends the set and gives the pages that were touched, in rising order.
    ///
    /// The seats are all those of the opening, in any order. That all are there is told by the sum of their quotas; a
    /// seat of quota 0 may be left out beside another one, since it has touched nothing. The refusal is that there was
    /// no memory, and hands all back.
    pub fn close(self, alloc: Global, seats: Vec<TouchSeat>) -> Result<Vec<u64>, TouchCloseRefused>
        requires some { 0 < length seats.items }
        requires tables { All (λ s. s.table ≡ self.table) seats.items }
        requires all { sum_by seat_quota seats.items ≡ self.total }
        ensures rising { IfOk result (λ pages. IsRising pages.items) }
        ensures pages { IfOk result (λ pages. (p : ℕ) → Contains pages.items p ↔ Contains (flat_map seat_touched seats.items) p) }
        ensures few { IfOk result (λ pages. length pages.items ≤ self.room) }
        ensures firsts { IfOk result (λ pages. (p : ℕ) → times p (flat_map seat_firsts seats.items) ≡ times p pages.items) }
        ensures refused { IfErr result (λ r. (r.touches ≡ self) × (r.seats.items ≡ seats.items)) }
    {
        let Ok(mut pages) = Vec::with_capacity(alloc, self.room as usize) else {
            return Err(TouchCloseRefused {
                touches: self,
                seats,
            });
        };
        let Touches { table, room, .. } = self;
        let all = join_all(&table.shared, seats);
        let closed = table.close_with(all);
        read_pages(&closed, room, &mut pages);
        closed.free();
        pages.sort_unstable();
        Ok(pages)
    }
}
