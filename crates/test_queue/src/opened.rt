//! A table under no rule, and its seats. A reader may rely on each of them being free and silent.
ghost use Rattle.std.specs.Prelude.{IfSome};
ghost use Rattle.test_queue.specs.Players.{AreIdle};

use list_cuts::Cut;
use lock_core::FreeGuard;
use range_queue::{QueueSeat, QueueTable};
use std::alloc::Global;

/// A table of so many seats in one list. None without memory, or for a number of seats that no table has.
pub fn open_seats(
    alloc: Global,
    seats: u32,
) -> Option<(QueueTable<FreeGuard>, Vec<QueueSeat<FreeGuard>>)>
    ensures idle { IfSome result (λ r. AreIdle r.0.table r.1.items) }
{
    match QueueTable::open_cut(alloc, seats, Cut::one(), &[]) {
        Ok((table, opened)) => Some((table, opened)),
        Err(_) => None,
    }
}
