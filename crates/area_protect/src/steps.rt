//! The steps of a change of protection over one area, after the speculative mprotect of Kogan, Dice and Issa, EuroSys
//! 2020: a look at the area under its pages as a reader; the area, with a page on each side, held as a writer, and the
//! look made anew; and the change. Each step says what it has found as a fact of the history, so a way that ends at
//! holding everything keeps its cause. Only private functions speak of these.
ghost use Rattle.std.specs.Prelude.{true, ◌≡◌, ◌<◌, ◌≤◌, None, IfOk, IfErr, MatchOption};
ghost use Rattle.page_types.specs.declared.TheConstants.{LIMIT};
ghost use Rattle.page_types.specs.declared.calls.Call.TheVariants.{Protect};
ghost use Rattle.page_types.specs.Pages.{page_of, end_page};
ghost use Rattle.space_model.specs.Areas.{IsInRange};
ghost use Rattle.space_model.specs.Held.{IsWidened};
ghost use Rattle.area_rows.specs.History.{IsAtRest};
ghost use Rattle.range_rw.specs.Contract.{AsksFor, AsksOnly};
ghost use Rattle.area_rows.specs.Changes.{alone};
ghost use Rattle.area_rows.specs.Rows.{keeps_by};
ghost use Rattle.area_protect.specs.Protects.{AsksPagesFirst, read_pages};
ghost use Rattle.area_protect.specs.Looks.{HasLooked, LooksFirst};
ghost use Rattle.area_protect.specs.Attempts.{MayCall, IsUndecided, ArePagesOf, HoldsRow, IsFound, IsOtherKind, IsHeld, IsAttempt};
ghost use Rattle.area_protect.specs.Attempts.{IsChanged, NeedsRows, NeedsMoreRows};

use crate::path::Cause;
use area_rows::{AreaPlan, Caller, Row, Space};
use lock_core::Mode;
use page_types::{Call, Kind, Prot, Span};
use space_model::{Area, Entry, Under};
use std::sync::Wait;
use std::sync::ledger::Ledger;
use word_rows::Steps;

/// A change of protection, as the input names it.
#[derive(Clone, Copy)]
pub(crate) struct Request {
    pub(crate) line: u32,
    pub(crate) addr: u64,
    pub(crate) len: u64,
    pub(crate) prot: Prot,
}

impl Request {
    /// The call.
    pub(crate) fn call(self) -> Call
        ensures { result ≡ Protect self.addr self.len self.prot }
    {
        Call::Protect {
            addr: self.addr,
            len: self.len,
            prot: self.prot,
        }
    }
}

/// The area that a look found: after the first `at` entries, of which `sequence` were under everything.
#[derive(Clone, Copy)]
pub(crate) struct Found {
    pub(crate) area: Area,
    pub(crate) sequence: u64,
    pub(crate) at: u64,
}

/// What holding the area came to.
#[derive(Clone, Copy)]
pub(crate) enum Held {
    /// The area is held, and has the boundaries that were found.
    Area(Row, Kind),
    /// It has others by now.
    Other,
    /// A call under everything came between: so many of the first `second` entries were under everything.
    Moved { second: u64, sequence: u64 },
}

/// What one attempt came to.
#[derive(Clone, Copy)]
pub(crate) enum Attempt {
    /// The call has its entry; so many entries before it were under everything.
    Done { entry: Entry, seq: u64 },
    /// The area's boundaries have moved: another attempt.
    Again,
    /// The call has to hold everything.
    Whole(Cause),
}

/// The first look, under the pages of the call as a reader: the area in which they lie, or after how many entries they
/// lay in none.
pub(crate) fn look_around<R: Wait, L: Ledger>(
    space: &Space,
    wait: &R,
    caller: &mut Caller,
    pages: Span,
    steps: &mut Steps<L>,
) -> Result<Found, u64>
    requires table { caller.old.seat.table ≡ space.now.table }
    requires keeps { keeps_by space.now.table ≡ true }
    requires free { caller.old.seat.held ≡ None }
    ensures looked { HasLooked caller.old caller.new }
    ensures free { caller.new.seat.held ≡ None }
    ensures first { LooksFirst caller.old.seat pages.lo pages.hi caller.new.seat }
    ensures asks { AsksFor (read_pages pages.lo pages.hi) caller.old.seat.trace.asked caller.new.seat.trace.asked }
    ensures found { IfOk result (IsFound caller.old.seat caller.new.seat pages) }
    ensures other { IfErr result (IsOtherKind caller.old.seat caller.new.seat pages) }
{
    space.acquire(wait, caller, pages, Mode::Reader);
    let sequence = space.sequence(caller);
    let row = space.row_of(caller, pages.lo(), steps);
    let at = space.look(caller);
    space.release(caller, steps);
    match row.kind {
        Some(kind) if row.hi >= pages.hi() => {
            let area = Area {
                lo: row.lo,
                hi: row.hi,
                kind,
            };
            Ok(Found { area, sequence, at })
        }
        _ => Err(at),
    }
}

/// The area that was found, with a page on each side, as a writer: it is read anew, where no call under everything came
/// between. Where the boundaries are others, or such a call came, nothing is held afterwards.
pub(crate) fn hold_area<R: Wait, L: Ledger>(
    space: &Space,
    wait: &R,
    caller: &mut Caller,
    page: u64,
    found: Found,
    wide: Span,
    steps: &mut Steps<L>,
) -> Held
    requires table { caller.old.seat.table ≡ space.now.table }
    requires keeps { keeps_by space.now.table ≡ true }
    requires free { caller.old.seat.held ≡ None }
    requires area { IsInRange found.area }
    requires inside { (found.area.lo ≤ page) × (page < found.area.hi) }
    requires wide { IsWidened found.area wide }
    ensures looked { HasLooked caller.old caller.new }
    ensures asks { AsksOnly (alone wide) caller.old.seat.trace.asked caller.new.seat.trace.asked }
    ensures held { IsHeld caller.old caller.new page found wide result }
{
    space.acquire(wait, caller, wide, Mode::Writer);
    let sequence = space.sequence(caller);
    if sequence != found.sequence {
        let second = space.look(caller);
        space.release(caller, steps);
        return Held::Moved { second, sequence };
    }
    let row = space.row_of(caller, page, steps);
    match row.kind {
        Some(kind) if row.lo == found.area.lo && row.hi == found.area.hi => Held::Area(row, kind),
        _ => {
            space.release(caller, steps);
            Held::Other
        }
    }
}

/// The change, where the area is held: it is planned, numbered and stored, and the range is given back. In a sealed
/// area it is numbered as refused, and nothing is stored. Where it would leave another number of rows it is not
/// numbered, and the area is held still.
pub(crate) fn change_held<L: Ledger>(
    space: &Space,
    caller: &mut Caller,
    request: Request,
    row: Row,
    kind: Kind,
    wide: Span,
    steps: &mut Steps<L>,
) -> Option<Entry>
    requires table { caller.old.seat.table ≡ space.now.table }
    requires left { 0 < caller.old.left }
    requires asked { IsUndecided request }
    requires holds { HoldsRow caller.old (page_of request.addr) wide row kind }
    requires rest { IsAtRest caller.old.seat.pass }
    requires from { row.lo ≤ page_of request.addr }
    requires until { end_page request.addr request.len ≤ row.hi }
    requires limit { row.hi ≤ LIMIT }
    ensures asked { caller.new.seat.trace.asked ≡ caller.old.seat.trace.asked }
    ensures changed { MatchOption result (NeedsRows caller.old request caller.new) (IsChanged caller.old request caller.new) }
{
    let plan = space.plan_area(
        caller,
        request.addr,
        request.len,
        request.prot,
        &row,
        kind,
        wide,
    );
    let (line, call, under) = (request.line, request.call(), Under::Area(wide));
    match plan {
        AreaPlan::NotSimple => None,
        AreaPlan::Same(reply) => {
            let entry = space.number(caller, line, call, reply, under, steps);
            space.release(caller, steps);
            Some(entry)
        }
        AreaPlan::SetKind(change, reply) => {
            let entry = space.number(caller, line, call, reply, under, steps);
            space.set_kind(caller, change.index, change.kind);
            space.release(caller, steps);
            Some(entry)
        }
        AreaPlan::MoveStart(change, reply) => {
            let entry = space.number(caller, line, call, reply, under, steps);
            space.move_start(caller, change.index, change.start);
            space.release(caller, steps);
            Some(entry)
        }
        AreaPlan::Sealed(reply) => {
            let entry = space.number(caller, line, call, reply, under, steps);
            space.release(caller, steps);
            Some(entry)
        }
    }
}

/// The same, with nothing held afterwards: where the change would leave another number of rows, the answer is after how
/// many entries that was so.
pub(crate) fn change_area<L: Ledger>(
    space: &Space,
    caller: &mut Caller,
    request: Request,
    row: Row,
    kind: Kind,
    wide: Span,
    steps: &mut Steps<L>,
) -> Result<Entry, u64>
    requires table { caller.old.seat.table ≡ space.now.table }
    requires keeps { keeps_by space.now.table ≡ true }
    requires left { 0 < caller.old.left }
    requires asked { IsUndecided request }
    requires holds { HoldsRow caller.old (page_of request.addr) wide row kind }
    requires rest { IsAtRest caller.old.seat.pass }
    requires from { row.lo ≤ page_of request.addr }
    requires until { end_page request.addr request.len ≤ row.hi }
    requires limit { row.hi ≤ LIMIT }
    ensures free { caller.new.seat.held ≡ None }
    ensures asked { caller.new.seat.trace.asked ≡ caller.old.seat.trace.asked }
    ensures changed { IfOk result (IsChanged caller.old request caller.new) }
    ensures rows { IfErr result (NeedsMoreRows caller.old request caller.new) }
{
    match change_held(space, caller, request, row, kind, wide, steps) {
        Some(entry) => Ok(entry),
        None => {
            let at = space.look(caller);
            space.release(caller, steps);
            Err(at)
        }
    }
}

/// One attempt: a look, the area, and the change. Nothing is held afterwards.
pub(crate) fn one_attempt<R: Wait, L: Ledger>(
    space: &Space,
    wait: &R,
    caller: &mut Caller,
    request: Request,
    pages: Span,
    steps: &mut Steps<L>,
) -> Attempt
    requires caller { MayCall space.now.table caller.old }
    requires keeps { keeps_by space.now.table ≡ true }
    requires asked { IsUndecided request }
    requires pages { ArePagesOf request pages }
    ensures free { caller.new.seat.held ≡ None }
    ensures first { LooksFirst caller.old.seat pages.lo pages.hi caller.new.seat }
    ensures asks { AsksPagesFirst pages.lo pages.hi caller.old.seat.trace.asked caller.new.seat.trace.asked }
    ensures attempt { IsAttempt caller.old request caller.new result }
{
    let found = match look_around(space, wait, caller, pages, steps) {
        Ok(found) => found,
        Err(at) => return Attempt::Whole(Cause::NotOneArea { at }),
    };
    let wide = found.area.widened();
    match hold_area(space, wait, caller, pages.lo(), found, wide, steps) {
        Held::Other => Attempt::Again,
        Held::Moved { second, sequence } => Attempt::Whole(Cause::Moved {
            first: found.at,
            second,
            old_seq: found.sequence,
            new_seq: sequence,
        }),
        Held::Area(row, kind) => {
            match change_area(space, caller, request, row, kind, wide, steps) {
                Ok(entry) => Attempt::Done {
                    entry,
                    seq: found.sequence,
                },
                Err(at) => Attempt::Whole(Cause::NotSimple { at }),
            }
        }
    }
}
