//! A change of protection beside others that doesn't say by which way it went. So it serves a space that keeps no
//! history, where no number tells how many entries there were at a look. It takes the same steps as the one of
//! `protecting`, without looks: a reader may rely on its entry being right at its place (`IsAnswered` of `area_rows`),
//! and on which ranges it asked for (`AskedBeside` of `specs/Protects.antt`).
ghost use Rattle.std.specs.Prelude.{◌≡◌, ◌<◌, ◌≤◌, None, IfSome, MatchOption};
ghost use Rattle.page_types.specs.declared.calls.Call.TheVariants.{Protect};
ghost use Rattle.page_types.specs.Named.{IsNamedCall};
ghost use Rattle.page_types.specs.Pages.{page_of, end_page};
ghost use Rattle.space_model.specs.Areas.{IsInRange};
ghost use Rattle.space_model.specs.Held.{IsWidened};
ghost use Rattle.range_rw.specs.Contract.{AsksFor, AsksOnly};
ghost use Rattle.area_rows.specs.Changes.{alone};
ghost use Rattle.area_rows.specs.Called.{IsAnswered, IsCalled};
ghost use Rattle.area_protect.specs.Looks.{HasLooked};
ghost use Rattle.area_protect.specs.Protects.{AsksPagesFirst, AskedBeside, AskedUnder, read_pages};
ghost use Rattle.area_protect.specs.Attempts.{MayCall, IsUndecided, ArePagesOf, HoldsRow, IsAround, IsMade, IsMadeAgain};

use crate::steps::{Request, change_held};
use area_rows::{Answer, Caller, Row, Space};
use lock_core::Mode;
use page_types::{Call, Kind, Prot, Span, plain};
use space_model::{Area, Entry};
use std::marker::Brand;
use std::sync::Wait;
use std::sync::ledger::{Blank, Ledger};
use word_rows::Steps;

/// What one attempt came to.
#[derive(Clone, Copy)]
pub(crate) enum Made {
    /// The call has its entry.
    Done(Entry),
    /// The area's boundaries have moved: another attempt.
    Again,
    /// The call has to hold everything.
    Whole,
}

/// The area in which these pages lie, if there is one, as it is while they are held as a reader.
fn find_area<R: Wait, L: Ledger>(
    space: &Space,
    wait: &R,
    caller: &mut Caller,
    pages: Span,
    steps: &mut Steps<L>,
) -> Option<Area>
    requires table { caller.old.seat.table ≡ space.now.table }
    requires free { caller.old.seat.held ≡ None }
    ensures looked { HasLooked caller.old caller.new }
    ensures free { caller.new.seat.held ≡ None }
    ensures asks { AsksFor (read_pages pages.lo pages.hi) caller.old.seat.trace.asked caller.new.seat.trace.asked }
    ensures found { IfSome result (IsAround pages) }
{
    space.acquire(wait, caller, pages, Mode::Reader);
    let row = space.row_of(caller, pages.lo(), steps);
    space.release(caller, steps);
    match row.kind {
        Some(kind) if row.hi >= pages.hi() => Some(Area {
            lo: row.lo,
            hi: row.hi,
            kind,
        }),
        _ => None,
    }
}

/// The row of the area that was found, held with a page on each side as a writer. Where the boundaries are others by
/// now nothing is held.
fn hold_found<R: Wait, L: Ledger>(
    space: &Space,
    wait: &R,
    caller: &mut Caller,
    page: u64,
    area: Area,
    wide: Span,
    steps: &mut Steps<L>,
) -> Option<(Row, Kind)>
    requires table { caller.old.seat.table ≡ space.now.table }
    requires free { caller.old.seat.held ≡ None }
    requires area { IsInRange area }
    requires inside { (area.lo ≤ page) × (page < area.hi) }
    requires wide { IsWidened area wide }
    ensures looked { HasLooked caller.old caller.new }
    ensures asks { AsksOnly (alone wide) caller.old.seat.trace.asked caller.new.seat.trace.asked }
    ensures held { MatchOption result (caller.new.seat.held ≡ None)
        (λ r. HoldsRow caller.new page wide r.0 r.1 × (r.0.lo ≡ area.lo) × (r.0.hi ≡ area.hi)) }
{
    space.acquire(wait, caller, wide, Mode::Writer);
    let row = space.row_of(caller, page, steps);
    match row.kind {
        Some(kind) if row.lo == area.lo && row.hi == area.hi => Some((row, kind)),
        _ => {
            space.release(caller, steps);
            None
        }
    }
}

/// One attempt: the area, held, and the change. Nothing is held afterwards.
fn try_beside<R: Wait, L: Ledger>(
    space: &Space,
    wait: &R,
    caller: &mut Caller,
    request: Request,
    pages: Span,
    steps: &mut Steps<L>,
) -> Made
    requires caller { MayCall space.now.table caller.old }
    requires asked { IsUndecided request }
    requires pages { ArePagesOf request pages }
    ensures free { caller.new.seat.held ≡ None }
    ensures asks { AsksPagesFirst pages.lo pages.hi caller.old.seat.trace.asked caller.new.seat.trace.asked }
    ensures made { IsMade caller.old request caller.new result }
{
    let area = match find_area(space, wait, caller, pages, steps) {
        Some(area) => area,
        None => return Made::Whole,
    };
    let wide = area.widened();
    match hold_found(space, wait, caller, pages.lo(), area, wide, steps) {
        None => Made::Again,
        Some((row, kind)) => {
            match change_held(space, caller, request, row, kind, wide, steps) {
                Some(entry) => Made::Done(entry),
                None => {
                    space.release(caller, steps);
                    Made::Whole
                }
            }
        }
    }
}

/// Attempts, one after another, until one doesn't end at boundaries that have moved.
fn tries<R: Wait, L: Ledger>(
    space: &Space,
    wait: &R,
    caller: &mut Caller,
    request: Request,
    pages: Span,
    steps: &mut Steps<L>,
) -> Made
    requires caller { MayCall space.now.table caller.old }
    requires asked { IsUndecided request }
    requires pages { ArePagesOf request pages }
    ensures free { caller.new.seat.held ≡ None }
    ensures asks { AsksPagesFirst pages.lo pages.hi caller.old.seat.trace.asked caller.new.seat.trace.asked }
    ensures made { IsMade caller.old request caller.new result }
    ensures last { ¬ IsMadeAgain result }
{
    caller.holds_pages();
    let mut last = Made::Again;
    for _ in wait.forever() {
        last = try_beside(space, wait, caller, request, pages, steps);
        match last {
            Made::Again => {}
            Made::Done(_) | Made::Whole => break,
        }
    }
    last
}

/// A change of protection that its arguments don't decide.
fn beside_counting<L: Ledger, R: Wait>(
    space: &Space,
    wait: &R,
    caller: &mut Caller,
    request: Request,
    blank: Blank,
) -> Entry
    requires blank { (blank.name ≡ L.name) × (blank.parts ≡ L.parts) × (0 < L.parts) }
    requires caller { MayCall space.now.table caller.old }
    requires asked { IsUndecided request }
    ensures called { IsCalled caller.old request.line (Protect request.addr request.len request.prot) result caller.new }
    ensures asks { AskedUnder (page_of request.addr) (end_page request.addr request.len) result.under caller.old.seat.trace.asked caller.new.seat.trace.asked }
{
    let mut steps = Steps::<L>::new(blank);
    let pages = Span::of_valid(request.addr, request.len);
    match tries(space, wait, caller, request, pages, &mut steps) {
        Made::Done(entry) => entry,
        Made::Whole => space.call_whole(wait, caller, request.line, request.call()),
        Made::Again => unreachable!(),
    }
}

/// Changes the protection of the `len` bytes from `addr` on, rounded up to whole pages, as mprotect(2) and `protect`
/// do, and doesn't say by which way it went; the space need not keep its history. The caller is of this space and holds
/// nothing, and `prot` has named bits alone; `line` is the line of the input that names the call, counted from 1.
/// A change within one area that is sealed, which refuses it, or that leaves the number of rows as it is, holds that
/// area and a page on each side; every other one holds all pages, and a call that its arguments decide holds nothing.
/// It waits for the callers that hold these pages. `Spent` comes exactly where the caller has no number left, and
/// nothing has changed then. It takes no memory.
pub fn protect_beside<R: Wait>(
    space: &Space,
    wait: &R,
    caller: &mut Caller,
    line: u32,
    addr: u64,
    len: u64,
    prot: Prot,
) -> Answer
    requires table { caller.old.seat.table ≡ space.now.table }
    requires free { caller.old.seat.held ≡ None }
    requires named { IsNamedCall (Protect addr len prot) }
    ensures answer { IsAnswered caller.old line (Protect addr len prot) result caller.new }
    ensures asks { AskedBeside (page_of addr) (end_page addr len) result caller.old.seat.trace.asked caller.new.seat.trace.asked }
{
    if caller.left() == 0 {
        return Answer::Spent;
    }
    let request = Request {
        line,
        addr,
        len,
        prot,
    };
    let call = Call::Protect { addr, len, prot };
    if let Some(reply) = plain(&call) {
        return Answer::Given(space.call_plain(caller, line, call, reply));
    }
    let blank = Blank::new(1);
    Answer::Given(beside_counting::<Brand, R>(space, wait, caller, request, blank))
}
