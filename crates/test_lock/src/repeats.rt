//! Tries one after another on one thread, each given back at once where it held its range. A reader may rely on the
//! seat holding nothing after them, however many were refused.
ghost use Rattle.std.specs.Prelude.{◌≡◌, ◌≤◌, None};
ghost use Rattle.range_rw.specs.Contract.{IsGivenBack};

use lock_core::{FreeGuard, Mode, Range};
use range_rw::{RangeTable, Seat};

/// Tries once, and gives back what was held. Whether it was.
fn hold_once(
    table: &RangeTable<FreeGuard>,
    seat: &mut Seat<FreeGuard>,
    range: Range,
    mode: Mode,
) -> bool
    requires table { seat.old.table ≡ table.now.table }
    requires free { seat.old.held ≡ None }
    ensures back { IsGivenBack seat.old seat.new }
{
    if table.try_acquire_uncounted(seat, range, mode).is_err() {
        return false;
    }
    table.release_uncounted(seat);
    true
}

/// So many tries for the range, each given back at once where it held it: how many did.
pub fn hold_times(
    table: &RangeTable<FreeGuard>,
    seat: &mut Seat<FreeGuard>,
    range: Range,
    mode: Mode,
    tries: u32,
) -> u32
    requires table { seat.old.table ≡ table.now.table }
    requires free { seat.old.held ≡ None }
    ensures back { IsGivenBack seat.old seat.new }
    ensures most { result ≤ tries }
{
    let mut held = 0;
    for _ in 0..tries {
        if hold_once(table, seat, range, mode) {
            held += 1;
        }
    }
    held
}
