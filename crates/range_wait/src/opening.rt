//! Opening a table with its event count, and its seats. All memory is taken here. A reader may rely on a refusal that
//! names the number of seats being exact; want of memory has no other cause.
ghost use Rattle.std.specs.Prelude.{◌≡◌, ◌+◌, ◌≤◌, ◌^◌, IfOk, IfErr, None, [], length, replicate, vec_capacity, false};
ghost use Rattle.list_cuts.specs.Cut.{list_count};
ghost use Rattle.range_rw.specs.Contract.{IsOpenFault, IsSeatCount, first_passes};
ghost use Rattle.queue_guard.specs.Places.{queue_words};
ghost use Rattle.queue_guard.specs.Rule.{first_pass};
ghost use Rattle.range_queue.specs.Opening.{first_words};
ghost use Rattle.range_wait.specs.Seats.{AreNewWaitSeats, AreOut, AreSilent, seats_of};

use crate::table::{WaitSeat, WaitTable};
use event_count::{EventCount, EventSeat};
use list_cuts::Cut;
use lock_core::Guard;
use range_queue::{QueueSeat, QueueTable};
use range_rw::OpenFault;
use std::alloc::Global;

/// Puts each seat of the lock together with one of the event count, in their order. There is room for them.
fn seat_all<G: Guard>(
    mut seats: Vec<QueueSeat<G>>,
    mut events: Vec<EventSeat>,
    made: &mut Vec<WaitSeat<G>>,
)
    requires empty { made.old.items ≡ [] }
    requires room { length seats.items ≤ vec_capacity made.old }
    requires even { length events.items ≡ length seats.items }
    requires silent { AreSilent seats.items }
    requires out { AreOut events.items }
    ensures { made.new.items ≡ seats_of seats.items events.items }
{
    'all: while !seats.is_empty() {
        let seat = seats.remove(0);
        let event = events.remove(0);
        made.push_reserved(WaitSeat { seat, event });
    }
}

impl<G: Guard> WaitTable<G> {
    /// A table of that many seats, from 1 to 16, over these client words of the guard, and its seats in order of their
    /// numbers, from 0 on. The client words are at most 2^20 less 152, and meet the guard with no grant and the passes
    /// of all seats at the opening. The ranges stand in the lists of the cut.
    /// `Seats` comes exactly where the number is 0 or above 16, and `Memory` only for want of memory.
    pub fn open_cut(
        alloc: Global,
        seats: u32,
        cut: Cut,
        client: &[u64],
    ) -> Result<(WaitTable<G>, Vec<WaitSeat<G>>), OpenFault>
        requires clients { length client.now + queue_words ≤ 2 ^ 20 }
        requires rule { IsSeatCount seats → G.holds (replicate seats None) client.now (first_passes (G.first client.now) 0 seats) }
        ensures count { IfOk result (λ _. IsSeatCount seats) }
        ensures refused { IfErr result (IsOpenFault seats) }
        ensures shape { IfOk result (λ r. (r.0.lock.seats ≡ seats) × (r.0.lock.client ≡ length client.now) × (r.0.lock.cut ≡ cut)
            × (r.0.events.seats ≡ seats)) }
        ensures seats { IfOk result (λ r. AreNewWaitSeats seats (list_count cut) r.0.lock.table r.0.events.table
            (first_pass G.first (first_words seats client.now)) r.1.items) }
    {
        let (table, inner) = QueueTable::open_cut(alloc, seats, cut, client)?;
        let Ok(mut made) = Vec::with_capacity(alloc, seats as usize) else {
            return Err(OpenFault::Memory);
        };
        match EventCount::open(alloc, seats) {
            Ok((events, ours)) => {
                seat_all(inner, ours, &mut made);
                Ok((WaitTable { table, events }, made))
            }
            Err(_) => Err(OpenFault::Memory),
        }
    }
}
