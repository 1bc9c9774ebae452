//! Calls on a table under the high-water guard: it is opened with the mark at 0, read and raised under a range, and
//! closed for its last mark. Each call makes its steps through a seat, and its contract says what the seat knows after.
ghost use Rattle.std.specs.Prelude.{◌≡◌, ◌≤◌, ◌<◌, length, IfOk, IfErr, true, None};
ghost use Rattle.range_rw.specs.Contract.{IsClientCall, IsOpenFault, AreIdleSeats, IsGivenBack};
ghost use Rattle.example_ranges.specs.HighWater.{MayRead, MayRaise};

use crate::high_water::HighWater;
use lock_core::{Mode, Range};
use range_rw::{OpenFault, RangeTable, Seat};
use std::alloc::Global;
use std::sync::Wait;

/// A table of so many seats whose mark is 0.
pub fn open_mark(
    alloc: Global,
    seats: u32,
) -> Result<(RangeTable<HighWater>, Vec<Seat<HighWater>>), OpenFault>
    ensures refused { IfErr result (IsOpenFault seats) }
    ensures shape { IfOk result (λ r. (r.0.seats ≡ seats) × (r.0.client ≡ 1) × (length r.1.items ≡ seats)) }
    ensures idle { IfOk result (λ r. AreIdleSeats r.0.table r.1.items) }
{
    RangeTable::open(alloc, seats, &[0])
}

/// Reads the mark, under a range with 0 in it that the seat holds.
pub fn read(table: &RangeTable<HighWater>, seat: &mut Seat<HighWater>) -> u64
    requires table { seat.old.table ≡ table.now.table }
    requires word { 0 < table.now.client }
    requires held { MayRead seat.old.held }
    ensures call { IsClientCall seat.old 0 seat.new }
    ensures risen { seat.old.pass.seen ≤ result }
    ensures known { seat.new.pass ≡ record { seen = result; sure = true } }
{
    table.load_as_uncounted::<HighWater>(seat, 0)
}

/// Raises the mark, under a range with 0 in it that the seat holds as a writer and under which it has read the
/// mark.
pub fn raise(table: &RangeTable<HighWater>, seat: &mut Seat<HighWater>, to: u64)
    requires table { seat.old.table ≡ table.now.table }
    requires word { 0 < table.now.client }
    requires held { MayRaise seat.old.held }
    requires sure { seat.old.pass.sure ≡ true }
    requires rises { seat.old.pass.seen ≤ to }
    ensures call { IsClientCall seat.old 0 seat.new }
    ensures known { seat.new.pass ≡ record { seen = to; sure = true } }
{
    table.store_as_uncounted::<HighWater>(seat, 0, to);
}

/// Raises the mark to `value` where it is below, and returns what it is then. It waits for its range.
pub fn mark<R: Wait>(
    wait: &R,
    table: &RangeTable<HighWater>,
    seat: &mut Seat<HighWater>,
    value: u64,
) -> u64
    requires table { seat.old.table ≡ table.now.table }
    requires word { 0 < table.now.client }
    requires free { seat.old.held ≡ None }
    ensures back { IsGivenBack seat.old seat.new }
    ensures reached { value ≤ result }
    ensures risen { seat.old.pass.seen ≤ result }
    ensures known { seat.new.pass.seen ≡ result }
{
    let Ok(range) = Range::of(0, 1) else {
        unreachable!()
    };
    table.acquire(wait, seat, range, Mode::Writer);
    let risen = read(table, seat).max(value);
    raise(table, seat, risen);
    table.release_uncounted(seat);
    risen
}
