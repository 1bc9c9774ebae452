//! The calls of a queue as the cases script them: each tells what the next one needs, and no more.
ghost use Rattle.std.specs.Prelude.{◌≡◌, IsSome, None, [], length};
ghost use Rattle.list_cuts.specs.Cut.{list_count};
ghost use Rattle.range_rw.specs.Contract.{AreNewSeatsIn};
ghost use Rattle.queue_guard.specs.Rule.{first_pass};
ghost use Rattle.range_queue.specs.Opening.{first_words};
ghost use Rattle.queue_laws.specs.declared.places.Telling.TheVariants.{Silent};
ghost use Rattle.test_queue.specs.Players.{IsFree, IsIdle};

use list_cuts::Cut;
use lock_core::{FreeGuard, Mode, Range};
use range_queue::{NotYet, QueueSeat, QueueTable};
use std::alloc::Global;
use std::process::Abort;

/// The three seats of a new table of three.
fn three_of(
    table: &QueueTable<FreeGuard>,
    mut seats: Vec<QueueSeat<FreeGuard>>,
) -> (
    QueueSeat<FreeGuard>,
    QueueSeat<FreeGuard>,
    QueueSeat<FreeGuard>,
)
    requires three { length seats.items ≡ 3 }
    requires new { AreNewSeatsIn (list_count table.now.cut) table.now.table (first_pass (λ _ _. tt) (first_words 3 [])) seats.items }
    ensures first { IsIdle table.now.table result.0 }
    ensures second { IsIdle table.now.table result.1 }
    ensures third { IsIdle table.now.table result.2 }
{
    let first = seats.remove(0);
    let second = seats.remove(0);
    let third = seats.remove(0);
    (first, second, third)
}

/// A table of three seats under no rule, and its seats.
pub fn open_three(
    rt: &impl Abort,
    alloc: Global,
) -> (
    QueueTable<FreeGuard>,
    QueueSeat<FreeGuard>,
    QueueSeat<FreeGuard>,
    QueueSeat<FreeGuard>,
)
    ensures first { IsIdle result.0.table result.1 }
    ensures second { IsIdle result.0.table result.2 }
    ensures third { IsIdle result.0.table result.3 }
{
    let Ok((table, seats)) = QueueTable::open_cut(alloc, 3, Cut::one(), &[]) else {
        panic!(rt; "memory")
    };
    let (first, second, third) = three_of(&table, seats);
    (table, first, second, third)
}

/// Holds the range by a single try.
pub fn hold(
    rt: &impl Abort,
    table: &QueueTable<FreeGuard>,
    seat: &mut QueueSeat<FreeGuard>,
    range: Range,
    mode: Mode,
)
    requires free { IsFree table.now.table seat.old }
    ensures table { seat.new.table ≡ table.now.table }
    ensures held { IsSome seat.new.held }
    ensures silent { seat.new.pass.telling ≡ Silent }
{
    assert!(rt; table.try_acquire(seat, range, mode).is_ok());
    assert_eq!(rt; table.ticket(seat), None);
}

/// Tries for the range, and is refused so.
pub fn refuse(
    rt: &impl Abort,
    table: &QueueTable<FreeGuard>,
    seat: &mut QueueSeat<FreeGuard>,
    range: Range,
    mode: Mode,
    expected: NotYet,
)
    requires free { IsFree table.now.table seat.old }
    ensures free { IsFree table.now.table seat.new }
    ensures telling { seat.new.pass.telling ≡ seat.old.pass.telling }
{
    match table.try_acquire(seat, range, mode) {
        Ok(()) => panic!(rt; "held"),
        Err(refused) => assert_eq!(rt; refused, expected),
    }
}

/// Announces the range, with that ticket.
pub fn announce(
    rt: &impl Abort,
    table: &QueueTable<FreeGuard>,
    seat: &mut QueueSeat<FreeGuard>,
    range: Range,
    mode: Mode,
    expected: u64,
)
    requires idle { IsIdle table.now.table seat.old }
    ensures free { IsFree table.now.table seat.new }
{
    assert_eq!(rt; table.announce(seat, range, mode), Ok(expected));
    assert_eq!(rt; table.ticket(seat), Some(expected));
}

/// Gives back what the seat holds.
pub fn give(table: &QueueTable<FreeGuard>, seat: &mut QueueSeat<FreeGuard>)
    requires table { seat.old.table ≡ table.now.table }
    requires held { IsSome seat.old.held }
    requires silent { seat.old.pass.telling ≡ Silent }
    ensures idle { IsIdle table.now.table seat.new }
{
    table.release(seat);
}

/// Takes the announcement back.
pub fn withdraw(rt: &impl Abort, table: &QueueTable<FreeGuard>, seat: &mut QueueSeat<FreeGuard>)
    requires free { IsFree table.now.table seat.old }
    ensures idle { IsIdle table.now.table seat.new }
{
    table.withdraw(seat);
    assert_eq!(rt; table.ticket(seat), None);
}
