//! Holding a range without a rule on client words: a try that another seat's range refuses, and a try whose steps are
//! counted. Nothing here waits for another seat.
ghost use Rattle.std.specs.Prelude.{◌≡◌, ◌<◌, ◌≤◌, ◌+◌, ◌*◌, None, IfOk};
ghost use Rattle.range_rw.specs.Contract.{IsGivenBack, most_steps};

use lock_core::{FreeGuard, Mode, Range};
use range_rw::{NotHeld, OpenFault, RangeTable, Seat};
use std::alloc::Global;
use std::marker::Brand;
use std::sync::ledger::{Blank, Ledger};
use word_rows::Steps;

/// A table of two seats under no rule, and its seats.
pub fn open_two(
    alloc: Global,
) -> Result<(RangeTable<FreeGuard>, Seat<FreeGuard>, Seat<FreeGuard>), OpenFault>
    ensures tables { IfOk result (λ r. (r.1.table ≡ r.0.table) × (r.2.table ≡ r.0.table)) }
    ensures free { IfOk result (λ r. (r.1.held ≡ None) × (r.2.held ≡ None)) }
{
    let (table, mut seats) = RangeTable::open(alloc, 2, &[])?;
    let first = seats.remove(0);
    let second = seats.remove(0);
    Ok((table, first, second))
}

/// One seat writes in 0 to 10 while another asks to read 5 to 6: why the other was refused, if it was.
pub fn meet(
    table: &RangeTable<FreeGuard>,
    writer: &mut Seat<FreeGuard>,
    reader: &mut Seat<FreeGuard>,
) -> Result<(), NotHeld>
    requires tables { (writer.old.table ≡ table.now.table) × (reader.old.table ≡ table.now.table) }
    requires free { (writer.old.held ≡ None) × (reader.old.held ≡ None) }
    ensures writer_back { IsGivenBack writer.old writer.new }
    ensures reader_back { IsGivenBack reader.old reader.new }
{
    let (Ok(wide), Ok(narrow)) = (Range::of(0, 10), Range::of(5, 6)) else {
        unreachable!()
    };
    table.try_acquire_uncounted(writer, wide, Mode::Writer)?;
    let answer = table.try_acquire_uncounted(reader, narrow, Mode::Reader);
    if answer.is_ok() {
        table.release_uncounted(reader);
    }
    table.release_uncounted(writer);
    answer
}

/// Tries for a range and gives it back, and counts the steps.
fn hold_counting<L: Ledger>(
    table: &RangeTable<FreeGuard>,
    seat: &mut Seat<FreeGuard>,
    range: Range,
    steps: &mut Steps<L>,
) -> Result<(), NotHeld>
    requires table { seat.old.table ≡ table.now.table }
    requires free { seat.old.held ≡ None }
    ensures back { IsGivenBack seat.old seat.new }
    ensures bound { steps.new ≤ steps.old + most_steps table.now + 2 }
{
    table.try_acquire(seat, range, Mode::Writer, steps)?;
    table.release(seat, steps);
    Ok(())
}

fn hold_with<L: Ledger>(
    table: &RangeTable<FreeGuard>,
    seat: &mut Seat<FreeGuard>,
    range: Range,
    blank: Blank,
) -> Result<(), NotHeld>
    requires blank { (blank.name ≡ L.name) × (blank.parts ≡ L.parts) × (0 < L.parts) }
    requires table { seat.old.table ≡ table.now.table }
    requires free { seat.old.held ≡ None }
    ensures back { IsGivenBack seat.old seat.new }
{
    let mut steps = Steps::<L>::new(blank);
    hold_counting(table, seat, range, &mut steps)
}

/// Tries for a range and gives it back, with a counter of its own.
pub fn hold_once(
    table: &RangeTable<FreeGuard>,
    seat: &mut Seat<FreeGuard>,
    range: Range,
) -> Result<(), NotHeld>
    requires table { seat.old.table ≡ table.now.table }
    requires free { seat.old.held ≡ None }
    ensures back { IsGivenBack seat.old seat.new }
{
    hold_with::<Brand>(table, seat, range, Blank::new(1))
}
