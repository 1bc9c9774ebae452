//! The same for a caller that holds nothing: it waits until it holds the span as a reader, and goes on holding it or
//! gives it back. A reader may rely on the list being of one moment of one hold of the whole span, which stands among
//! what the caller asked for (`WasSeen` of `specs/Shown.antt`).
ghost use Rattle.std.specs.Prelude.{◌≡◌, ◌≤◌, ◌<◌, None, Some, length, vec_capacity, OnOk, OnErr};
ghost use Rattle.lock_core.specs.declared.range.Mode.TheVariants.{Reader};
ghost use Rattle.space_model.specs.Areas.{IsAreaList};
ghost use Rattle.range_rw.specs.Contract.{AsksFor};
ghost use Rattle.area_rows.specs.Callers.{held_span};
ghost use Rattle.area_looks.specs.Shown.{AreAreasIn, HasLookedAt, ShowsAreas, ShowsPart, WasSeen};

use crate::held::areas_held;
use area_rows::{Caller, Space};
use lock_core::Mode;
use page_types::Span;
use space_model::Area;
use std::alloc::AllocError;
use std::marker::Brand;
use std::sync::Wait;
use std::sync::ledger::{Blank, Ledger};
use word_rows::Steps;

/// Holding and reading, with a counter of steps of its own.
fn hold_counting<L: Ledger, R: Wait>(
    space: &Space,
    wait: &R,
    caller: &mut Caller,
    span: Span,
    into: &mut Vec<Area>,
    blank: Blank,
) -> Result<(), AllocError>
    requires blank { (blank.name ≡ L.name) × (blank.parts ≡ L.parts) × (0 < L.parts) }
    requires table { caller.old.seat.table ≡ space.now.table }
    requires free { caller.old.seat.held ≡ None }
    ensures shows { OnOk result (ShowsAreas caller.new.seat span.lo span.hi into.new.items) }
    ensures once { OnOk result (WasSeen caller.old.seat (Some (held_span span Reader)) (AreAreasIn span.lo span.hi into.new.items)) }
    ensures list { IsAreaList into.new.items }
    ensures part { OnErr result (ShowsPart caller.new.seat span into.new.items) }
    ensures full { OnErr result (vec_capacity into.old ≤ length into.new.items) }
    ensures held { caller.new.seat.held ≡ Some (held_span span Reader) }
    ensures looked { HasLookedAt caller.old caller.new }
    ensures asks { AsksFor (held_span span Reader) caller.old.seat.trace.asked caller.new.seat.trace.asked }
{
    let mut steps = Steps::<L>::new(blank);
    space.acquire(wait, caller, span, Mode::Reader);
    areas_held(space, caller, span, into, &mut steps)
}

/// The areas of the span by a caller that holds nothing: it waits until it holds the span as a reader, and goes on
/// holding it until `release` of the space. So no call changes the span meanwhile, and faults go on. The caller is of
/// this space. Its entries, what it has seen and the numbers that it has left stay.
/// `AllocError`: the list's room was used up and couldn't grow. It then has the areas of the span's first pages, and
/// the caller holds the span.
pub fn hold_areas<R: Wait>(
    space: &Space,
    wait: &R,
    caller: &mut Caller,
    span: Span,
    into: &mut Vec<Area>,
) -> Result<(), AllocError>
    requires table { caller.old.seat.table ≡ space.now.table }
    requires free { caller.old.seat.held ≡ None }
    ensures shows { OnOk result (ShowsAreas caller.new.seat span.lo span.hi into.new.items) }
    ensures once { OnOk result (WasSeen caller.old.seat (Some (held_span span Reader)) (AreAreasIn span.lo span.hi into.new.items)) }
    ensures list { IsAreaList into.new.items }
    ensures part { OnErr result (ShowsPart caller.new.seat span into.new.items) }
    ensures full { OnErr result (vec_capacity into.old ≤ length into.new.items) }
    ensures held { caller.new.seat.held ≡ Some (held_span span Reader) }
    ensures looked { HasLookedAt caller.old caller.new }
    ensures asks { AsksFor (held_span span Reader) caller.old.seat.trace.asked caller.new.seat.trace.asked }
{
    let blank = Blank::new(1);
    hold_counting::<Brand, R>(space, wait, caller, span, into, blank)
}

/// The same, and the span is given back, whichever the answer is.
fn areas_counting<L: Ledger, R: Wait>(
    space: &Space,
    wait: &R,
    caller: &mut Caller,
    span: Span,
    into: &mut Vec<Area>,
    blank: Blank,
) -> Result<(), AllocError>
    requires blank { (blank.name ≡ L.name) × (blank.parts ≡ L.parts) × (0 < L.parts) }
    requires table { caller.old.seat.table ≡ space.now.table }
    requires free { caller.old.seat.held ≡ None }
    ensures once { OnOk result (WasSeen caller.old.seat (Some (held_span span Reader)) (AreAreasIn span.lo span.hi into.new.items)) }
    ensures list { IsAreaList into.new.items }
    ensures full { OnErr result (vec_capacity into.old ≤ length into.new.items) }
    ensures free { caller.new.seat.held ≡ None }
    ensures looked { HasLookedAt caller.old caller.new }
    ensures asks { AsksFor (held_span span Reader) caller.old.seat.trace.asked caller.new.seat.trace.asked }
{
    let mut steps = Steps::<L>::new(blank);
    space.acquire(wait, caller, span, Mode::Reader);
    let read = areas_held(space, caller, span, into, &mut steps);
    space.release(caller, &mut steps);
    read
}

/// The areas of the span, clipped to it, as they are at one moment, by a caller that holds nothing: it waits until it
/// holds the whole span as a reader, reads, and gives the span back, whichever the answer is. They stand in the list in
/// order, in place of what stood there. The caller is of this space. Its entries, what it has seen and the numbers that
/// it has left stay.
/// `AllocError`: the list's room was used up and couldn't grow.
pub fn areas<R: Wait>(
    space: &Space,
    wait: &R,
    caller: &mut Caller,
    span: Span,
    into: &mut Vec<Area>,
) -> Result<(), AllocError>
    requires table { caller.old.seat.table ≡ space.now.table }
    requires free { caller.old.seat.held ≡ None }
    ensures once { OnOk result (WasSeen caller.old.seat (Some (held_span span Reader)) (AreAreasIn span.lo span.hi into.new.items)) }
    ensures list { IsAreaList into.new.items }
    ensures full { OnErr result (vec_capacity into.old ≤ length into.new.items) }
    ensures free { caller.new.seat.held ≡ None }
    ensures looked { HasLookedAt caller.old caller.new }
    ensures asks { AsksFor (held_span span Reader) caller.old.seat.trace.asked caller.new.seat.trace.asked }
{
    let blank = Blank::new(1);
    areas_counting::<Brand, R>(space, wait, caller, span, into, blank)
}
