//! A scan of the lock's list by one caller: it gives ranges that are held or asked for, one after another, and keeps
//! the caller inside an epoch until it is ended. A reader may rely on a caller's pass, and on all else that it has of
//! the space, being as before at each call; it may go on with the caller when the scan is ended. Kogan, Dice and Issa
//! 2020.

use crate::space::{Caller, Space};
use range_rw::Scanned;
use std::marker::Brand;
use std::sync::ledger::Blank;

/// A scan by a caller of a space, which keeps the caller inside an epoch. It must be spent by `end`.
pub struct SpaceScan<'a> {
    caller: &'a mut Caller,
    space: &'a Space,
}

impl Space {
    ghost use Rattle.std.specs.Prelude.{◌≡◌, ◌≤◌, ◌+◌, ◌*◌, Some, None};
    ghost use Rattle.range_rw.specs.Contract.{fresh_scan};
    ghost use Rattle.range_rw.specs.Scan.{IsScanCall};
    ghost use Rattle.area_rows.specs.Callers.{HasSameRows};

    /// Begins a scan of the ranges that are held or asked for. The caller is of this space and holds nothing; it is
    /// borrowed until the scan is ended.
    pub fn scan<'a>(&'a self, caller: &'a mut Caller) -> SpaceScan<'a>
        requires table { caller.old.seat.table ≡ self.now.table }
        requires free { caller.old.seat.held ≡ None }
        ensures same_reference { result.caller.ghost_name ≡ caller.entry.ghost_name }
        ensures space { result.space.now ≡ self.now }
        ensures call { IsScanCall caller.old.seat result.caller.now.seat }
        ensures begun { result.caller.now.seat.scan ≡ Some (fresh_scan (16 * self.now.seats + 1)) }
        ensures left { result.caller.now.left ≡ caller.old.left }
        ensures rows { HasSameRows caller.old result.caller.now }
        ensures bound { result.caller.now.seat.trace.taken ≤ caller.old.seat.trace.taken + 2 }
    {
        self.table
            .begin_scan::<Brand>(&mut caller.seat, Blank::new(1));
        SpaceScan {
            caller,
            space: self,
        }
    }
}

impl<'a> SpaceScan<'a> {
    ghost use Rattle.std.specs.Prelude.{◌≡◌, ◌≤◌, ◌+◌, Some, None, true, IsSome};
    ghost use Rattle.range_rw.specs.declared.scan.Scanned.TheVariants.{End, Long};
    ghost use Rattle.range_rw.specs.Contract.{OpenScan, scan_steps};
    ghost use Rattle.range_rw.specs.Scan.{IsScanCall, IsNext};
    ghost use Rattle.area_rows.specs.Callers.{HasSameRows};

    /// Goes on to the next node of the list, past at most one that isn't marked. It answers as `Scan::next` of
    /// `range_rw`, by the same causes.
    pub fn next(&mut self) -> Scanned
        requires table { self.old.caller.now.seat.table ≡ self.old.space.now.table }
        requires free { self.old.caller.now.seat.held ≡ None }
        requires inside { IsSome self.old.caller.now.seat.scan }
        ensures same_reference { self.new.caller.ghost_name ≡ self.old.caller.ghost_name }
        ensures space { self.new.space.now ≡ self.old.space.now }
        ensures call { IsScanCall self.old.caller.now.seat self.new.caller.now.seat }
        ensures next { (was : OpenScan) → self.old.caller.now.seat.scan ≡ Some was → IsNext self.old.caller.now.seat self.new.caller.now.seat was result }
        ensures ended { (was : OpenScan) → self.old.caller.now.seat.scan ≡ Some was → was.ended ≡ true
            → (self.new.caller.now.seat ≡ self.old.caller.now.seat) × (result ≡ End) }
        ensures spent { (was : OpenScan) → self.old.caller.now.seat.scan ≡ Some was → was.nodes ≡ was.most
            → (self.new.caller.now.seat ≡ self.old.caller.now.seat) × (result ≡ Long was.most) }
        ensures left { self.new.caller.now.left ≡ self.old.caller.now.left }
        ensures rows { HasSameRows self.old.caller.now self.new.caller.now }
        ensures bound { (was : OpenScan) → self.old.caller.now.seat.scan ≡ Some was
            → self.new.caller.now.seat.trace.taken ≤ self.old.caller.now.seat.trace.taken + scan_steps self.old.space.now was }
    {
        let space = self.space;
        let caller = &mut *self.caller;
        space
            .table
            .scan_next::<Brand>(&mut caller.seat, Blank::new(1))
    }

    /// Ends the scan: the caller leaves its epoch, and is its owner's again.
    pub fn end(self)
        requires table { self.caller.now.seat.table ≡ self.space.now.table }
        requires free { self.caller.now.seat.held ≡ None }
        ensures call { IsScanCall self.entry.caller.now.seat self.exit.0.now.seat }
        ensures ended { self.exit.0.now.seat.scan ≡ None }
        ensures left { self.exit.0.now.left ≡ self.entry.caller.now.left }
        ensures rows { HasSameRows self.entry.caller.now self.exit.0.now }
        ensures bound { self.exit.0.now.seat.trace.taken ≤ self.entry.caller.now.seat.trace.taken + 1 }
    {
        let SpaceScan { caller, space } = self;
        space
            .table
            .end_scan::<Brand>(&mut caller.seat, Blank::new(1));
    }
}
