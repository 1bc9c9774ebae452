//! The area at a page, with its exact ends. Who holds one page knows its kind, and not where its area ends: others may
//! move the ends meanwhile. So the area is held with a page past each end, as a reader, and read again, until it lies
//! in what is held. A reader may rely on it being an area of the state of one moment (`IsAreaAt` and `WasSeen` of
//! `specs/Shown.antt`).
ghost use Rattle.std.specs.Prelude.{◌≡◌, ◌<◌, ◌≤◌, None, Some, IfOk, OnErr};
ghost use Rattle.word_rows.specs.declared.backoff.TheConstants.{KEPT_LOOKS, REFUSED_ROUNDS};
ghost use Rattle.list_cuts.specs.Cut.{TakesTwo};
ghost use Rattle.page_types.specs.declared.TheConstants.{LIMIT};
ghost use Rattle.page_types.specs.declared.pages.Span.{Span};
ghost use Rattle.lock_core.specs.declared.range.Mode.TheVariants.{Reader};
ghost use Rattle.range_rw.specs.Contract.{AsksAmong, AsksFor, AsksOnly, IsRefusedAfter};
ghost use Rattle.area_rows.specs.History.{IsAtRest};
ghost use Rattle.area_rows.specs.Callers.{held_span};
ghost use Rattle.area_looks.specs.Shown.{HasLookedAt, IsAreaAt, IsReadAround, WasSeen};
ghost use Rattle.area_looks.specs.Found.{IsFound, IsLast, IsWider};

use area_rows::{Caller, Space};
use lock_core::Mode;
use page_types::Span;
use range_rw::Anew;
use space_model::Area;
use std::marker::Brand;
use std::sync::Wait;
use std::sync::ledger::{Blank, Ledger};
use word_rows::Steps;

/// What one hold came to.
#[derive(Clone, Copy)]
pub enum Found {
    /// The page isn't mapped.
    Free,
    /// The area at the page, which lay in what was held with a page past each end.
    Whole(Area),
    /// It didn't: the pages to hold next.
    Wider(Span),
}

/// What the row of the page shows to a caller that holds these pages round it as a reader. It gives them back.
fn look_under<L: Ledger>(
    space: &Space,
    caller: &mut Caller,
    page: u64,
    wide: Span,
    steps: &mut Steps<L>,
) -> Found
    requires table { caller.old.seat.table ≡ space.now.table }
    requires held { caller.old.seat.held ≡ Some (held_span wide Reader) }
    requires rest { IsAtRest caller.old.seat.pass }
    requires inside { (wide.lo ≤ page) × (page < wide.hi) }
    ensures found { IsFound caller.old.seat page wide result }
    ensures free { caller.new.seat.held ≡ None }
    ensures looked { HasLookedAt caller.old caller.new }
    ensures asked { caller.new.seat.trace.asked ≡ caller.old.seat.trace.asked }
{
    let row = space.row_of(caller, page, steps);
    space.sequence(caller);
    space.release(caller, steps);
    match row.kind {
        None => Found::Free,
        Some(kind) => {
            let area = Area {
                lo: row.lo,
                hi: row.hi,
                kind,
            };
            let around = area.widened();
            if wide.lo() <= around.lo() && around.hi() <= wide.hi() {
                Found::Whole(area)
            } else {
                Found::Wider(around)
            }
        }
    }
}

/// One look at the row of the page while these pages round it are held. Nothing is held afterwards.
fn look_once<R: Wait, L: Ledger>(
    space: &Space,
    wait: &R,
    caller: &mut Caller,
    page: u64,
    wide: Span,
    steps: &mut Steps<L>,
) -> Found
    requires table { caller.old.seat.table ≡ space.now.table }
    requires free { caller.old.seat.held ≡ None }
    requires inside { (wide.lo ≤ page) × (page < wide.hi) }
    ensures found { IsFound caller.old.seat page wide result }
    ensures free { caller.new.seat.held ≡ None }
    ensures looked { HasLookedAt caller.old caller.new }
    ensures asks { AsksFor (held_span wide Reader) caller.old.seat.trace.asked caller.new.seat.trace.asked }
{
    space.acquire(wait, caller, wide, Mode::Reader);
    look_under(space, caller, page, wide, steps)
}

/// Looks, one after another, until one doesn't want more pages.
fn look_on<R: Wait, L: Ledger>(
    space: &Space,
    wait: &R,
    caller: &mut Caller,
    page: u64,
    steps: &mut Steps<L>,
) -> Found
    requires table { caller.old.seat.table ≡ space.now.table }
    requires free { caller.old.seat.held ≡ None }
    requires page { page < LIMIT }
    ensures last { IsLast caller.old.seat page result }
    ensures ends { ¬ IsWider result }
    ensures free { caller.new.seat.held ≡ None }
    ensures looked { HasLookedAt caller.old caller.new }
    ensures asks { AsksAmong (IsReadAround page) caller.old.seat.trace.asked caller.new.seat.trace.asked }
{
    caller.holds_pages();
    let mut wide = Span::of_page(page);
    let mut last = Found::Free;
    for _ in wait.forever() {
        last = look_once(space, wait, caller, page, wide, steps);
        match last {
            Found::Wider(span) => wide = span,
            Found::Free | Found::Whole(_) => break,
        }
    }
    last
}

/// The same with a counter of steps of its own.
fn at_counting<L: Ledger, R: Wait>(
    space: &Space,
    wait: &R,
    caller: &mut Caller,
    page: u64,
    blank: Blank,
) -> Option<Area>
    requires blank { (blank.name ≡ L.name) × (blank.parts ≡ L.parts) × (0 < L.parts) }
    requires table { caller.old.seat.table ≡ space.now.table }
    requires free { caller.old.seat.held ≡ None }
    requires page { page < LIMIT }
    ensures at { (span : Span) × WasSeen caller.old.seat (Some (held_span span Reader)) (IsAreaAt page result) }
    ensures free { caller.new.seat.held ≡ None }
    ensures looked { HasLookedAt caller.old caller.new }
    ensures asks { AsksAmong (IsReadAround page) caller.old.seat.trace.asked caller.new.seat.trace.asked }
{
    let mut steps = Steps::<L>::new(blank);
    match look_on(space, wait, caller, page, &mut steps) {
        Found::Whole(area) => Some(area),
        Found::Free => None,
        Found::Wider(_) => unreachable!(),
    }
}

/// The area at a page below `LIMIT`, with its exact ends, as it is at one moment, or None where the page isn't mapped.
/// The caller is of this space and holds nothing. It holds the page as a reader, and then the area with a page past
/// each end, until the area that it reads lies in what it holds so; it waits for writers of these pages, and holds
/// nothing in the end. Its entries, what it has seen and the numbers that it has left stay. It takes no memory.
pub fn area_at<R: Wait>(space: &Space, wait: &R, caller: &mut Caller, page: u64) -> Option<Area>
    requires table { caller.old.seat.table ≡ space.now.table }
    requires free { caller.old.seat.held ≡ None }
    requires page { page < LIMIT }
    ensures at { (span : Span) × WasSeen caller.old.seat (Some (held_span span Reader)) (IsAreaAt page result) }
    ensures free { caller.new.seat.held ≡ None }
    ensures looked { HasLookedAt caller.old caller.new }
    ensures asks { AsksAmong (IsReadAround page) caller.old.seat.trace.asked caller.new.seat.trace.asked }
{
    let blank = Blank::new(1);
    at_counting::<Brand, R>(space, wait, caller, page, blank)
}

/// The round of `area_round` with a counter of steps of its own.
fn round_counting<L: Ledger>(
    space: &Space,
    caller: &mut Caller,
    page: u64,
    wide: Span,
    refused: u32,
    blank: Blank,
) -> Result<Found, Anew>
    requires blank { (blank.name ≡ L.name) × (blank.parts ≡ L.parts) × (0 < L.parts) }
    requires table { caller.old.seat.table ≡ space.now.table }
    requires free { caller.old.seat.held ≡ None }
    requires inside { (wide.lo ≤ page) × (page < wide.hi) }
    ensures found { IfOk result (λ found. IsFound caller.old.seat page wide found) }
    ensures free { caller.new.seat.held ≡ None }
    ensures looked { HasLookedAt caller.old caller.new }
    ensures asks { AsksOnly (held_span wide Reader) caller.old.seat.trace.asked caller.new.seat.trace.asked }
    ensures kept { OnErr result (TakesTwo space.now.cut (held_span wide Reader).range → REFUSED_ROUNDS ≤ refused
        → IsRefusedAfter space.now.cut KEPT_LOOKS caller.old.seat caller.new.seat) }
{
    let mut steps = Steps::<L>::new(blank);
    match space.acquire_round(caller, wide, Mode::Reader, refused) {
        Ok(()) => Ok(look_under(space, caller, page, wide, &mut steps)),
        Err(anew) => Err(anew),
    }
}

/// One round of `area_at`, for a caller that waits between two rounds by itself, as one in a library that may not wait:
/// it asks once for these pages round the page, as a reader, and tells what they show. Where that is `Found::Wider`,
/// the next round is to be for those pages. It waits for nobody, and holds nothing afterwards. `refused` and the answer
/// of a round that got no pages are those of `acquire_round` of the space.
pub fn area_round(
    space: &Space,
    caller: &mut Caller,
    page: u64,
    wide: Span,
    refused: u32,
) -> Result<Found, Anew>
    requires table { caller.old.seat.table ≡ space.now.table }
    requires free { caller.old.seat.held ≡ None }
    requires inside { (wide.lo ≤ page) × (page < wide.hi) }
    ensures found { IfOk result (λ found. IsFound caller.old.seat page wide found) }
    ensures free { caller.new.seat.held ≡ None }
    ensures looked { HasLookedAt caller.old caller.new }
    ensures asks { AsksOnly (held_span wide Reader) caller.old.seat.trace.asked caller.new.seat.trace.asked }
    ensures kept { OnErr result (TakesTwo space.now.cut (held_span wide Reader).range → REFUSED_ROUNDS ≤ refused
        → IsRefusedAfter space.now.cut KEPT_LOOKS caller.old.seat caller.new.seat) }
{
    let blank = Blank::new(1);
    round_counting::<Brand>(space, caller, page, wide, refused, blank)
}
