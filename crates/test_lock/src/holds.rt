//! A try, a refusal and a release on one thread, as the trials script them. The lock's own calls tell more than a
//! script asks for, and its proof grows with all that they tell; each call here tells what the next one needs.
ghost use Rattle.std.specs.Prelude.{◌≡◌, IsSome, None};
ghost use Rattle.range_rw.specs.Contract.{IsGivenBack};

use lock_core::{FreeGuard, Mode, Range};
use range_rw::{NotHeld, RangeTable, Seat};
use std::process::Abort;

/// Holds the range by a single try.
pub fn hold(
    rt: &impl Abort,
    table: &RangeTable<FreeGuard>,
    seat: &mut Seat<FreeGuard>,
    range: Range,
    mode: Mode,
)
    requires table { seat.old.table ≡ table.now.table }
    requires free { seat.old.held ≡ None }
    ensures held { IsSome seat.new.held }
    ensures same { (seat.new.table ≡ seat.old.table) × (seat.new.number ≡ seat.old.number) }
{
    assert!(rt; table.try_acquire_uncounted(seat, range, mode).is_ok());
}

/// Tries for the range, and is refused so.
pub fn refuse(
    rt: &impl Abort,
    table: &RangeTable<FreeGuard>,
    seat: &mut Seat<FreeGuard>,
    range: Range,
    mode: Mode,
    expected: NotHeld,
)
    requires table { seat.old.table ≡ table.now.table }
    requires free { seat.old.held ≡ None }
    ensures back { IsGivenBack seat.old seat.new }
{
    match table.try_acquire_uncounted(seat, range, mode) {
        Ok(()) => panic!(rt; "held beside another"),
        Err(refused) => assert_eq!(rt; refused, expected),
    }
}

/// Gives back what the seat holds.
pub fn give(table: &RangeTable<FreeGuard>, seat: &mut Seat<FreeGuard>)
    requires table { seat.old.table ≡ table.now.table }
    requires held { IsSome seat.old.held }
    ensures back { IsGivenBack seat.old seat.new }
{
    table.release_uncounted(seat);
}
