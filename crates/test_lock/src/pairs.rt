//! Two seats of one table in the hands of one thread: taken out of the seats of an opening, and put back in order for
//! the closing.
ghost use Rattle.std.specs.Prelude.{◌≡◌, length, IfOk, None};
ghost use Rattle.range_rw.specs.Contract.{AreNewSeats, AreIdleSeats, new_seat};

use lock_core::FreeGuard;
use range_rw::{RangeTable, Seat};
use std::alloc::{AllocError, Global};

/// The two seats of a new table of two.
pub fn both(
    table: &RangeTable<FreeGuard>,
    mut seats: Vec<Seat<FreeGuard>>,
) -> (Seat<FreeGuard>, Seat<FreeGuard>)
    requires two { length seats.items ≡ 2 }
    requires new { AreNewSeats table.now.table (λ _. tt) seats.items }
    ensures first { result.0 ≡ new_seat table.now.table (λ _. tt) 0 }
    ensures second { result.1 ≡ new_seat table.now.table (λ _. tt) 1 }
{
    let first = seats.remove(0);
    let second = seats.remove(0);
    (first, second)
}

/// The two seats in order, as a closing takes them.
pub fn in_order(
    alloc: Global,
    table: &RangeTable<FreeGuard>,
    first: Seat<FreeGuard>,
    second: Seat<FreeGuard>,
) -> Result<Vec<Seat<FreeGuard>>, AllocError>
    requires first { (first.table ≡ table.now.table) × (first.number ≡ 0) × (first.held ≡ None) }
    requires second { (second.table ≡ table.now.table) × (second.number ≡ 1) × (second.held ≡ None) }
    ensures two { IfOk result (λ seats. length seats.items ≡ 2) }
    ensures idle { IfOk result (λ seats. AreIdleSeats table.now.table seats.items) }
{
    let mut seats = Vec::with_capacity(alloc, 2)?;
    seats.push_reserved(first);
    seats.push_reserved(second);
    Ok(seats)
}
