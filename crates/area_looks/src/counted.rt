//! The areas of a span without memory: as many as the caller has places for, and how many there are, and of how many
//! pages. All rows are read under one hold of the whole span. A reader may rely on `Tells` and `WasSeen`
//! (`specs/Places.antt`, `specs/Shown.antt`): the areas are those of one moment, each clipped to the span.
ghost use Rattle.std.specs.Prelude.{◌≡◌, ◌≤◌, ◌<◌, ◌+◌, ◌*◌, true, false, None, Some, List, IfOk, OnOk, OnErr, IsSome};
ghost use Rattle.word_rows.specs.declared.backoff.TheConstants.{KEPT_LOOKS, REFUSED_ROUNDS};
ghost use Rattle.list_cuts.specs.Cut.{TakesTwo};
ghost use Rattle.page_types.specs.declared.TheConstants.{SEARCH};
ghost use Rattle.lock_core.specs.declared.range.Mode.TheVariants.{Reader};
ghost use Rattle.range_rw.specs.Contract.{AsksFor, AsksOnly, IsRefusedAfter};
ghost use Rattle.area_rows.specs.History.{IsAtRest};
ghost use Rattle.area_rows.specs.Callers.{HasSameRows, IsReading, held_span};
ghost use Rattle.area_looks.specs.Shown.{AreAreasIn, HasLookedAt, HasReadAll, HoldsSpan, ShowsAreas, WasSeen};
ghost use Rattle.area_looks.specs.Places.{Tells, held_if, counts_of};

use crate::told::{Counts, Told, put_row};
use area_rows::{Caller, Space};
use lock_core::Mode;
use page_types::Span;
use range_rw::Anew;
use space_model::Area;
use std::marker::Brand;
use std::sync::Wait;
use std::sync::ledger::{Blank, Ledger};
use word_rows::Steps;

/// Reads the rows of the span, one after another, and counts and puts their areas.
fn fill_rows<T: Told, L: Ledger>(
    space: &Space,
    caller: &mut Caller,
    span: Span,
    into: &mut [T],
    steps: &mut Steps<L>,
) -> Counts
    requires table { caller.old.seat.table ≡ space.now.table }
    requires held { HoldsSpan caller.old.seat.held span }
    requires rest { IsAtRest caller.old.seat.pass }
    ensures told { Tells T.told into.old into.new result (λ list. HasReadAll caller.old span list caller.new) }
    ensures counted { steps.new + caller.old.seat.trace.taken ≡ steps.old + caller.new.seat.trace.taken }
{
    let mut page = span.lo();
    let last = span.hi();
    let mut counts = Counts { areas: 0, pages: 0 };
    'rows: while page < last {
        let row = space.row_of(caller, page, steps);
        let end = row.hi.min(last);
        counts = put_row(into, counts, page, row.kind, end);
        page = end;
    }
    counts
}

/// Puts the areas of the span, clipped to it, into the places, in order, the first of them where there are more than
/// places; other places stay. Answers how many areas there are, and how many pages they have together. The caller is as
/// for `areas_held`, and goes on holding what it held; it waits for nobody, and takes no memory. What was put and the
/// answer are right until the caller draws a number or gives the pages back. The steps are those of `areas_held`.
pub fn fill_held<T: Told, L: Ledger>(
    space: &Space,
    caller: &mut Caller,
    span: Span,
    into: &mut [T],
    steps: &mut Steps<L>,
) -> Counts
    requires table { caller.old.seat.table ≡ space.now.table }
    requires held { HoldsSpan caller.old.seat.held span }
    requires rest { IsAtRest caller.old.seat.pass }
    ensures shows { Tells T.told into.old into.new result (λ list. ShowsAreas caller.new.seat span.lo span.hi list
        × WasSeen caller.old.seat caller.old.seat.held (AreAreasIn span.lo span.hi list)) }
    ensures reading { IsReading caller.old.seat caller.new.seat }
    ensures left { caller.new.left ≡ caller.old.left }
    ensures rows { HasSameRows caller.old caller.new }
    ensures bound { caller.new.seat.trace.taken ≤ caller.old.seat.trace.taken + ((SEARCH + 3) * (2 * result.areas + 2) + 1) }
    ensures counted { steps.new + caller.old.seat.trace.taken ≡ steps.old + caller.new.seat.trace.taken }
{
    let counts = fill_rows(space, caller, span, into, steps);
    steps.tick();
    space.sequence(caller);
    counts
}

/// Gives back what the caller holds, or keeps it.
fn give_unless(space: &Space, caller: &mut Caller, keep: bool)
    requires table { caller.old.seat.table ≡ space.now.table }
    requires holds { IsSome caller.old.seat.held }
    requires rest { IsAtRest caller.old.seat.pass }
    ensures kept { keep ≡ true → caller.new ≡ caller.old }
    ensures given { keep ≡ false → caller.new.seat.held ≡ None }
    ensures looked { HasLookedAt caller.old caller.new }
    ensures asked { caller.new.seat.trace.asked ≡ caller.old.seat.trace.asked }
{
    if !keep {
        space.release_uncounted(caller);
    }
}

/// What a caller that holds the span as a reader sees of it. It gives the span back, or keeps it.
fn fill_under<T: Told, L: Ledger>(
    space: &Space,
    caller: &mut Caller,
    span: Span,
    keep: bool,
    into: &mut [T],
    blank: Blank,
) -> Counts
    requires blank { (blank.name ≡ L.name) × (blank.parts ≡ L.parts) × (0 < L.parts) }
    requires table { caller.old.seat.table ≡ space.now.table }
    requires held { caller.old.seat.held ≡ Some (held_span span Reader) }
    requires rest { IsAtRest caller.old.seat.pass }
    ensures told { Tells T.told into.old into.new result (λ list. WasSeen caller.old.seat (Some (held_span span Reader)) (AreAreasIn span.lo span.hi list)
        × (keep ≡ true → ShowsAreas caller.new.seat span.lo span.hi list)) }
    ensures held { caller.new.seat.held ≡ held_if keep (held_span span Reader) }
    ensures looked { HasLookedAt caller.old caller.new }
    ensures asked { caller.new.seat.trace.asked ≡ caller.old.seat.trace.asked }
{
    let mut steps = Steps::<L>::new(blank);
    let counts = fill_held(space, caller, span, into, &mut steps);
    give_unless(space, caller, keep);
    counts
}

/// One round of looking for the areas of the span, for a caller that waits between two rounds by itself, as one in a
/// library that may not wait: it asks once for the span as a reader, and does what `fill_held` does. Then it gives the
/// span back, or with `keep` goes on holding it; so no call changes the span meanwhile, and faults go on. `refused` and
/// the answer of a round that didn't get the span are those of `acquire_round` of the space; after it all places are as
/// they were, and nothing is held. It takes no memory, and is no call of the history.
pub fn fill_round<T: Told>(
    space: &Space,
    caller: &mut Caller,
    span: Span,
    refused: u32,
    keep: bool,
    into: &mut [T],
) -> Result<Counts, Anew>
    requires table { caller.old.seat.table ≡ space.now.table }
    requires free { caller.old.seat.held ≡ None }
    ensures told { IfOk result (λ counts. Tells T.told into.old into.new counts (λ list.
        WasSeen caller.old.seat (Some (held_span span Reader)) (AreAreasIn span.lo span.hi list)
        × (keep ≡ true → ShowsAreas caller.new.seat span.lo span.hi list))) }
    ensures untold { OnErr result (into.new ≡ into.old) }
    ensures held { OnOk result (caller.new.seat.held ≡ held_if keep (held_span span Reader)) }
    ensures free { OnErr result (caller.new.seat.held ≡ None) }
    ensures looked { HasLookedAt caller.old caller.new }
    ensures asks { AsksOnly (held_span span Reader) caller.old.seat.trace.asked caller.new.seat.trace.asked }
    ensures kept { OnErr result (TakesTwo space.now.cut (held_span span Reader).range → REFUSED_ROUNDS ≤ refused
        → IsRefusedAfter space.now.cut KEPT_LOOKS caller.old.seat caller.new.seat) }
{
    let blank = Blank::new(1);
    match space.acquire_round(caller, span, Mode::Reader, refused) {
        Ok(()) => Ok(fill_under::<T, Brand>(space, caller, span, keep, into, blank)),
        Err(anew) => Err(anew),
    }
}

/// How many areas the span has, clipped to it, and how many pages of it are mapped, at one moment, by a caller that
/// holds nothing: it waits until it holds the whole span as a reader, counts, and gives it back. The caller is of this
/// space. Its entries, what it has seen and the numbers that it has left stay. It takes no memory.
pub fn counts<R: Wait>(space: &Space, wait: &R, caller: &mut Caller, span: Span) -> Counts
    requires table { caller.old.seat.table ≡ space.now.table }
    requires free { caller.old.seat.held ≡ None }
    ensures once { (list : List Area) × (result ≡ counts_of list)
        × WasSeen caller.old.seat (Some (held_span span Reader)) (AreAreasIn span.lo span.hi list) }
    ensures free { caller.new.seat.held ≡ None }
    ensures looked { HasLookedAt caller.old caller.new }
    ensures asks { AsksFor (held_span span Reader) caller.old.seat.trace.asked caller.new.seat.trace.asked }
{
    let blank = Blank::new(1);
    space.acquire(wait, caller, span, Mode::Reader);
    let mut none: [Area; 0] = [];
    fill_under::<Area, Brand>(space, caller, span, false, &mut none, blank)
}
