//! A table under no rule, and its seats. A reader may rely on each of them being of this table and free.
ghost use Rattle.std.specs.Prelude.{◌≡◌, IfSome, length};
ghost use Rattle.test_waits.specs.Seats.{AreIdle};

use list_cuts::Cut;
use lock_core::FreeGuard;
use range_wait::{WaitSeat, WaitTable};
use std::alloc::Global;

/// A table of so many seats in one list. None without memory, or for a number of seats that no table has.
pub fn open_seats(
    alloc: Global,
    seats: u32,
) -> Option<(WaitTable<FreeGuard>, Vec<WaitSeat<FreeGuard>>)>
    ensures idle { IfSome result (λ r. AreIdle r.0.lock.table r.0.events.table r.1.items) }
    ensures count { IfSome result (λ r. length r.1.items ≡ seats) }
{
    match WaitTable::open_cut(alloc, seats, Cut::one(), &[]) {
        Ok((table, opened)) => Some((table, opened)),
        Err(_) => None,
    }
}
