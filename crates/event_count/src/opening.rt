//! Opening an event count, with its seats. All memory is taken here. A reader may rely on a refusal that names the
//! number of seats being exact; want of memory has no other cause.
ghost use Rattle.std.specs.Prelude.{◌≡◌, IfOk, IfErr, replicate};
ghost use Rattle.event_count.specs.Calls.{IsSeatCount, IsEventFault, new_seat};

use crate::rule::EventRule;
use crate::table::{EventCount, EventFault, EventSeat};
use std::alloc::{AllocError, Global};
use word_rows::open_words;

/// The most seats that an event count has.
const MOST_SEATS: u32 = 16;

impl EventCount {
    /// An event count whose words are 0, and its seats.
    fn open_words_of(alloc: Global, seats: u32) -> Result<(EventCount, Vec<EventSeat>), AllocError>
        requires seats { IsSeatCount seats }
        ensures shape { IfOk result (λ r. r.0.seats ≡ seats) }
        ensures seats { IfOk result (λ r. r.1.items ≡ replicate seats (new_seat r.0.table)) }
    {
        let mut made = Vec::with_capacity(alloc, seats as usize)?;
        let (table, mut opened) = open_words::<EventRule>(alloc, seats, &[0, 0], &[])?;
        'all: while !opened.is_empty() {
            let seat = opened.remove(0);
            made.push_reserved(EventSeat { seat });
        }
        Ok((EventCount { table }, made))
    }

    /// An event count that was never advanced, and so many seats, of which none is counted.
    ///
    /// `Seats` comes exactly where the number of seats is 0 or above 16, and `Memory` only for want of memory.
    pub fn open(alloc: Global, seats: u32) -> Result<(EventCount, Vec<EventSeat>), EventFault>
        ensures count { IfOk result (λ _. IsSeatCount seats) }
        ensures shape { IfOk result (λ r. r.0.seats ≡ seats) }
        ensures seats { IfOk result (λ r. r.1.items ≡ replicate seats (new_seat r.0.table)) }
        ensures refused { IfErr result (IsEventFault seats) }
    {
        if seats == 0 || seats > MOST_SEATS {
            return Err(EventFault::Seats(seats));
        }
        match EventCount::open_words_of(alloc, seats) {
            Ok(opened) => Ok(opened),
            Err(_) => Err(EventFault::Memory),
        }
    }
}
