//! An event count and its seats: what each is made of, and what a contract sees of it.
use crate::records::Sleeper;
use crate::rule::EventRule;
use atomic_table::Table;
use std::alloc::Global;
use std::marker::Model;
use thiserror::Error;
use word_rows::Start;

/// Why no event count was opened.
#[derive(Debug, Drop, PartialEq, Eq, Error)]
pub enum EventFault {
    /// The number of seats, where it is 0 or above 16.
    #[error("{0} seats, where 1 to 16 may be")]
    Seats(u32),
    /// There was no memory.
    #[error("out of memory")]
    Memory,
}

/// The word that counts the sleepers.
pub(crate) const SLEEPERS: usize = 0;

/// The event word.
pub(crate) const EVENT: usize = 1;

/// An event count, which `EventCount::open` gives with its seats. Threads share it by reference.
#[derive(Drop)]
pub struct EventCount {
    pub(crate) table: Table<(), Sleeper, Start, EventRule, Global>,
}

impl Model for EventCount {
    ghost use Rattle.std.specs.Prelude.{◌≡◌};
    ghost use Rattle.event_count.specs.Calls.{EventShape};

    ghost Value = { EventShape };

    ghost view = { λ t. record { table = t.table.shared.table_id; seats = t.table.shared.key.seats } };

    ghost invariant = { λ t. (t.table.shared.table_id.words ≡ 2) × (t.table.shared.table_id.slots ≡ 0) };
}

/// A seat of an event count, by which one thread waits and wakes. One that is dropped while it is counted stays among
/// the sleepers, so that each wake writes from then on.
#[derive(Drop)]
pub struct EventSeat {
    pub(crate) seat: atomic_table::Seat<(), Sleeper>,
}

impl Model for EventSeat {
    ghost use Rattle.std.specs.Prelude.{◌≡◌, []};
    ghost use Rattle.event_count.specs.Calls.{SeatView};

    ghost Value = { SeatView };

    ghost view = { λ s. record { table = s.seat.table_id; counted = s.seat.me.0.counted; steps = s.seat.me.0.steps } };

    ghost invariant = { λ s. s.seat.me.1 ≡ [] };
}
