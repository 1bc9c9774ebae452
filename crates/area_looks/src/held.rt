//! The areas of a span by a caller that holds it: row after row, each clipped to the span. A row stands while any page
//! of it is held, so all rows that are read under one hold are those of one state. A reader may rely on `ShowsAreas`
//! and `WasSeen` (`specs/Shown.antt`). The list is that of proc_pid_maps(5).
ghost use Rattle.std.specs.Prelude.{◌≡◌, ◌≤◌, ◌<◌, ◌+◌, ◌*◌, ◌++◌, [], length, vec_capacity, OnOk, OnErr};
ghost use Rattle.page_types.specs.declared.TheConstants.{SEARCH};
ghost use Rattle.space_model.specs.Areas.{IsAreaList};
ghost use Rattle.row_plans.specs.RowLists.{with_row};
ghost use Rattle.area_rows.specs.History.{IsAtRest};
ghost use Rattle.area_rows.specs.Callers.{HasSameRows, IsReading};
ghost use Rattle.area_looks.specs.Shown.{AreAreasIn, HoldsSpan, HasReadAll, HasReadPart, ShowsAreas, ShowsPart, WasSeen};

use area_rows::{Caller, Space};
use page_types::{Kind, Span};
use space_model::Area;
use std::alloc::AllocError;
use std::sync::ledger::Ledger;
use word_rows::Steps;

/// Appends the area of the pages of a row, where it is no gap.
fn push_area(into: &mut Vec<Area>, lo: u64, kind: Option<Kind>, hi: u64) -> Result<(), AllocError>
    ensures items { OnOk result (into.new.items ≡ into.old.items ++ with_row lo kind hi []) }
    ensures same { OnErr result (into.new.items ≡ into.old.items) }
    ensures capacity { vec_capacity into.old ≤ vec_capacity into.new }
    ensures full { OnErr result (vec_capacity into.old ≤ length into.new.items) }
{
    if let Some(kind) = kind {
        into.push(Area { lo, hi, kind })?;
    }
    Ok(())
}

/// Reads the rows of the span, one after another, and appends their areas.
fn read_rows<L: Ledger>(
    space: &Space,
    caller: &mut Caller,
    span: Span,
    into: &mut Vec<Area>,
    steps: &mut Steps<L>,
) -> Result<(), AllocError>
    requires table { caller.old.seat.table ≡ space.now.table }
    requires held { HoldsSpan caller.old.seat.held span }
    requires rest { IsAtRest caller.old.seat.pass }
    requires empty { into.old.items ≡ [] }
    ensures all { OnOk result (HasReadAll caller.old span into.new.items caller.new) }
    ensures part { OnErr result (HasReadPart caller.old span into.new.items caller.new) }
    ensures full { OnErr result (vec_capacity into.old ≤ length into.new.items) }
    ensures counted { steps.new + caller.old.seat.trace.taken ≡ steps.old + caller.new.seat.trace.taken }
{
    let mut page = span.lo();
    let last = span.hi();
    'rows: while page < last {
        let row = space.row_of(caller, page, steps);
        let end = row.hi.min(last);
        push_area(into, page, row.kind, end)?;
        page = end;
    }
    Ok(())
}

/// Puts the areas of the span, clipped to it, into the list, in order, in place of what stood there. The caller is of
/// this space, holds each page of the span in either mode, which it has got by `acquire` or `try_acquire` of the space,
/// and has nothing to write; it goes on holding what it held, and waits for nobody. The list is right until the caller
/// draws a number or gives the pages back. It takes at most `SEARCH + 3` steps for each row that it reads, of which
/// there are at most two for each area of the list and two more, and one step behind them.
/// `AllocError`: the list's room was used up and couldn't grow. It then has the areas of the span's first pages, and
/// the caller holds what it held.
pub fn areas_held<L: Ledger>(
    space: &Space,
    caller: &mut Caller,
    span: Span,
    into: &mut Vec<Area>,
    steps: &mut Steps<L>,
) -> Result<(), AllocError>
    requires table { caller.old.seat.table ≡ space.now.table }
    requires held { HoldsSpan caller.old.seat.held span }
    requires rest { IsAtRest caller.old.seat.pass }
    ensures shows { OnOk result (ShowsAreas caller.new.seat span.lo span.hi into.new.items) }
    ensures were { OnOk result (WasSeen caller.old.seat caller.old.seat.held (AreAreasIn span.lo span.hi into.new.items)) }
    ensures list { IsAreaList into.new.items }
    ensures part { OnErr result (ShowsPart caller.new.seat span into.new.items) }
    ensures full { OnErr result (vec_capacity into.old ≤ length into.new.items) }
    ensures reading { IsReading caller.old.seat caller.new.seat }
    ensures left { caller.new.left ≡ caller.old.left }
    ensures rows { HasSameRows caller.old caller.new }
    ensures bound { caller.new.seat.trace.taken
        ≤ caller.old.seat.trace.taken + ((SEARCH + 3) * (2 * length into.new.items + 2) + 1) }
    ensures counted { steps.new + caller.old.seat.trace.taken ≡ steps.old + caller.new.seat.trace.taken }
{
    into.clear();
    let read = read_rows(space, caller, span, into, steps);
    steps.tick();
    space.sequence(caller);
    read
}
