//! A scan of a table's lists, from its beginning to its end, that shows the ranges of the nodes that it goes past. It
//! stops at the end of the last list, or where a call of the scan gives a node for which there is no place, a lost
//! exchange or too long a walk. A reader may rely on no scan being open after it, whatever it came to.
ghost use Rattle.std.specs.Prelude.{◌≡◌, None, IsSome};
ghost use Rattle.range_rw.specs.Scan.{IsScanCall};
ghost use Rattle.range_c.specs.Shown.{IsLook, IsStopped, IsWhole, IsWritten};

use crate::answers::{GzBusy, node_of};
use crate::recording::Recording;
use range_rw::{RangeTable, Scanned, Seat};
use std::marker::Brand;
use std::sync::ledger::Blank;

/// One call of an open scan.
fn look(table: &RangeTable<Recording>, seat: &mut Seat<Recording>) -> Scanned
    requires table { seat.old.table ≡ table.now.table }
    requires free { seat.old.held ≡ None }
    requires inside { IsSome seat.old.scan }
    ensures look { IsLook table.now.cut seat.old seat.new result }
    ensures inside { IsSome seat.new.scan }
{
    table.scan_next::<Brand>(seat, Blank::new(1))
}

/// The calls of a scan between its beginning and its end: as many as there are places, and one more, unless one of them
/// gives no node.
fn show_nodes(
    table: &RangeTable<Recording>,
    seat: &mut Seat<Recording>,
    ranges: &mut [GzBusy],
) -> (Scanned, usize)
    requires table { seat.old.table ≡ table.now.table }
    requires free { seat.old.held ≡ None }
    requires inside { IsSome seat.old.scan }
    ensures call { IsScanCall seat.old seat.new }
    ensures written { IsWritten result.1 ranges.old ranges.new }
    ensures stopped { IsStopped table.now.cut ranges.new result.1 result.0 seat.old seat.new }
{
    let mut found = 0;
    'nodes: while found < ranges.len() {
        let answer = look(table, seat);
        let Some(range) = node_of(&answer) else {
            return (answer, found);
        };
        ranges[found] = range;
        found += 1;
    }
    (look(table, seat), found)
}

/// Scans the lists of a table by a seat that holds nothing, and shows the ranges that it went past. Says what the last
/// call of the scan came to, and how many ranges are shown.
pub(crate) fn show_all(
    table: &RangeTable<Recording>,
    seat: &mut Seat<Recording>,
    ranges: &mut [GzBusy],
) -> (Scanned, usize)
    requires table { seat.old.table ≡ table.now.table }
    requires free { seat.old.held ≡ None }
    ensures call { IsScanCall seat.old seat.new }
    ensures outside { seat.new.scan ≡ None }
    ensures written { IsWritten result.1 ranges.old ranges.new }
    ensures whole { IsWhole table.now.seats table.now.cut ranges.new result.1 result.0 seat.old seat.new }
{
    table.begin_scan::<Brand>(seat, Blank::new(1));
    let shown = show_nodes(table, seat, ranges);
    table.end_scan::<Brand>(seat, Blank::new(1));
    shown
}
