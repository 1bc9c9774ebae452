//! A set of touched pages and its seats: what each is made of, and what a contract sees of it. Between two calls a seat
//! looks for nothing, and its pages are within its quota.
ghost use Rattle.std.specs.Prelude.{◌≡◌, ◌+◌, length};

use crate::records::SeatRecord;
use crate::rule::TouchRule;
use atomic_table::Table;
use std::alloc::Global;
use std::marker::Model;
use thiserror::Error;
use word_rows::Start;

/// Why no set was opened.
#[derive(Debug, Drop, PartialEq, Eq, Error)]
pub enum TouchFault {
    /// The number of quotas, where it is 0 or above 16.
    #[error("{0} seats, where 1 to 16 may be")]
    Seats(u32),
    /// The sum of the quotas, where it is above 2^20.
    #[error("room for {0} pages, where at most 1048576 may be")]
    Room(u64),
    /// There was no memory.
    #[error("out of memory")]
    Memory,
}

/// A set of page numbers that only grows. `Touches::open` gives it with its seats, and `close` takes them all and gives
/// the pages.
#[derive(Drop)]
pub struct Touches {
    pub(crate) table: Table<(), SeatRecord, Start, TouchRule, Global>,
    pub(crate) seats: u32,
    pub(crate) room: u32,
}

impl Model for Touches {
    ghost use Rattle.std.specs.Prelude.{◌≡◌, ◌<◌, ◌≤◌, ◌^◌, ◌-◌, length};
    ghost use Rattle.page_touch.specs.Touched.{share_sum};
    ghost use Rattle.page_touch.specs.Touches.{TouchShape};

    ghost Value = { TouchShape };

    ghost view = { λ t. record {
      table = t.table.shared.table_id;
      seats = t.seats;
      room = t.room;
      total = share_sum t.table.shared.key.shares.items 0 (t.table.shared.key.seats - 0);
    } };

    ghost invariant = { λ t. (length t.table.shared.key.words.items ≡ t.room) × (t.table.shared.table_id.words ≡ t.room)
        × (t.table.shared.table_id.slots ≡ 0) × (0 < t.room) × (t.room ≤ 2 ^ 20) };
}

/// A seat of the table while a step is made with it.
#[derive(Drop)]
pub struct Token {
    pub(crate) seat: atomic_table::Seat<(), SeatRecord>,
}

impl Model for Token {
    ghost use Rattle.std.specs.Prelude.{◌≡◌, []};
    ghost use Rattle.page_touch.specs.Touches.{TokenView};

    ghost Value = { TokenView };

    ghost view = { λ t. record { table = t.seat.table_id; own = t.seat.me.0 } };

    ghost invariant = { λ t. t.seat.me.1 ≡ [] };
}

/// A seat of a set, by which one thread touches pages: as many as its quota, counted by calls.
#[derive(Drop)]
pub struct TouchSeat {
    pub(crate) token: Token,
    pub(crate) left: u32,
}

impl Model for TouchSeat {
    ghost use Rattle.std.specs.Prelude.{◌≡◌, ◌+◌, None, length};
    ghost use Rattle.page_touch.specs.Touches.{TouchView, shown};

    ghost Value = { TouchView };

    ghost view = { λ s. shown s.token };

    ghost invariant = { λ s. (length s.token.own.touched + s.left ≡ s.token.own.quota) × (s.token.own.looking ≡ None) };
}

impl TouchSeat {
    ghost use Rattle.std.specs.Prelude.{◌≡◌, ◌+◌, length};

    /// How many pages it may still touch: its quota less its calls.
    pub fn left(&self) -> u32
        ensures { length self.now.touched + result ≡ self.now.quota }
    {
        self.left
    }
}
