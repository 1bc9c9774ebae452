//! A running address space and its callers: a caller has a seat in the lock's table, stores its own entries, and has
//! room for all that it may have to write. A space may be shared by threads by reference, and a caller may go from
//! one thread to another; all memory is taken when the space is opened and when it is closed.
ghost use Rattle.std.specs.Prelude.{◌≡◌, ◌≤◌, ◌<◌, ◌+◌, ◌^◌, vec_len, vec_capacity};

use area_guard::{Change, RowGuard};
use page_types::{LIMIT, ROWS};
use range_rw::{RangeTable, Seat};
use row_blocks::Position;
use row_plans::Cut;
use space_model::Entry;
use std::marker::Model;
use thiserror::Error;

/// Why no space was opened.
#[derive(Debug, Drop, PartialEq, Eq, Error)]
pub enum SpaceFault {
    /// The number of callers, where it is 0 or above 16.
    #[error("{0} callers, where 1 to 16 may be")]
    Callers(u32),
    /// The number of rows of the start, where it is above `ROWS`.
    #[error("{0} rows, where at most {most} may be", most = ROWS)]
    Rows(u32),
    /// There was no memory.
    #[error("out of memory")]
    Memory,
}

/// A running address space. `Space::open` gives it with its callers, and `close` takes them all and gives the history.
///
/// Here a caller holds pages as a reader while it reads the row of the first one, and how long the history is:
///
/// ```rust
/// space.acquire(wait, caller, pages, Mode::Reader);
/// let sequence = space.sequence(caller);
/// let row = space.row_of(caller, pages.lo(), steps);
/// let at = space.look(caller);
/// space.release(caller, steps);
/// ```
#[derive(Drop)]
pub struct Space {
    pub(crate) table: RangeTable<RowGuard>,
    /// How many blocks of rows the table has room for.
    pub(crate) blocks: u32,
}

impl Model for Space {
    ghost use Rattle.std.specs.Prelude.{◌≡◌, ◌≤◌, ◌<◌, ◌+◌, ◌*◌};
    ghost use Rattle.range_rw.specs.Contract.{TableShape};
    ghost use Rattle.area_guard.specs.Rows.{blocks_by};

    ghost Value = { TableShape };

    ghost view = { λ s. s.table };

    ghost invariant = { λ s. (36 + 129 * s.blocks ≤ s.table.client) × (s.blocks ≡ blocks_by s.table.table) × (s.blocks ≤ 2048) × (2 < s.blocks)
        × (0 < s.table.seats) };
}

/// One caller of a space. It holds one range at a time, and each of its calls has one entry in the history.
#[derive(Drop)]
pub struct Caller {
    pub(crate) seat: Seat<RowGuard>,
    pub(crate) worker: u32,
    /// Whether the space keeps its history. Where it doesn't, no entry is stored.
    pub(crate) keeps: bool,
    pub(crate) mine: Vec<Entry>,
    pub(crate) left: u64,
    /// How many rows there were at the last plan.
    pub(crate) count: u32,
    /// Which rows go by the last plan.
    pub(crate) cut: Cut<Position>,
    /// The row words that come in their place, with room for `SPARE` more than the table has room for: a call may
    /// change as many rows as there are. The room is touched only as far as rows come.
    pub(crate) plan: Vec<u64>,
    /// The row that the last plan over an area changes, or None where it changes nothing.
    pub(crate) change: Option<Change>,
}

impl Model for Caller {
    ghost use Rattle.std.specs.Prelude.{true, length, ◌≡◌, ◌+◌, ◌≤◌, ◌<◌, ◌^◌, None, vec_len, vec_capacity};
    ghost use Rattle.page_types.specs.declared.TheConstants.{ROWS, SPARE};
    ghost use Rattle.area_guard.specs.Rows.{blocks_by, keeps_by, room_of};
    ghost use Rattle.area_guard.specs.History.{IsAtRest};
    ghost use Rattle.area_rows.specs.Callers.{CallerView, IsHeldPages};

    ghost Value = { CallerView };

    ghost view = { λ c. record { seat = c.seat; left = c.left; count = c.count; cut = c.cut; more = c.plan.items; change = c.change } };

    ghost invariant = { λ c. (c.seat.number ≡ c.worker) × (c.keeps ≡ true → c.mine.items ≡ c.seat.pass.mine)
        × (c.keeps ≡ true → vec_len c.mine + c.left ≤ vec_capacity c.mine) × (length c.seat.pass.mine + c.left ≤ c.seat.pass.most)
        × (room_of c.seat.pass.blocks + SPARE ≤ vec_capacity c.plan) × IsHeldPages c.seat.held × (c.seat.held ≡ None → IsAtRest c.seat.pass)
        × (c.seat.pass.blocks ≡ blocks_by c.seat.table) × (c.seat.pass.most < 2 ^ 57)
        × (c.keeps ≡ keeps_by c.seat.table) × (c.seat.pass.keeps ≡ keeps_by c.seat.table) };
}

impl Caller {
    ghost use Rattle.std.specs.Prelude.{true, ◌≡◌, None};
    ghost use Rattle.area_guard.specs.Rows.{keeps_by};
    ghost use Rattle.page_types.specs.declared.TheConstants.{LIMIT};
    ghost use Rattle.area_guard.specs.History.{IsAtRest};
    ghost use Rattle.area_rows.specs.Callers.{IsHeldBelow, IsHeldPages};

    /// That a range which the caller holds has a page, and pages alone, and that a caller which holds nothing has
    /// written what it has numbered. It does nothing.
    pub fn holds_pages(&self)
        ensures below { IsHeldBelow self.now.seat.held LIMIT }
        ensures pages { IsHeldPages self.now.seat.held }
        ensures rest { self.now.seat.held ≡ None → IsAtRest self.now.seat.pass }
    {
        let _worker = self.worker;
    }

    /// The caller's number, counted from 0.
    pub fn worker(&self) -> u32
        ensures { result ≡ self.now.seat.number }
    {
        self.worker
    }

    /// How many numbers the caller may still draw: as many as were asked for it at the opening, or 2^56 where the space
    /// keeps no history, less one for each of its entries.
    pub fn left(&self) -> u64
        ensures { result ≡ self.now.left }
    {
        self.left
    }

    /// The caller's own entries, in order. Its space keeps its history.
    pub fn entries(&self) -> &[Entry]
        requires { keeps_by self.now.seat.table ≡ true }
        ensures { result.now ≡ self.now.seat.pass.mine }
    {
        self.mine.as_slice()
    }
}

fn sends<T: Send>() {}

fn shares<T: Sync>() {}

/// That a space is Send and Sync, and a caller is Send. It does nothing.
pub fn is_send_and_sync() {
    sends::<Space>();
    shares::<Space>();
    sends::<Caller>();
}
