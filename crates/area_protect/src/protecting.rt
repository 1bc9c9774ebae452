//! The call: nothing where the caller has no number left, the reply of the arguments where these decide, and otherwise
//! attempts over one area until one gets its entry or shows that the call has to hold everything.
ghost use Rattle.std.specs.Prelude.{true, ◌≡◌, ◌<◌, None};
ghost use Rattle.page_types.specs.declared.calls.Call.TheVariants.{Protect};
ghost use Rattle.page_types.specs.Named.{IsNamedCall};
ghost use Rattle.page_types.specs.Classes.{IsProtect};
ghost use Rattle.page_types.specs.Pages.{page_of, end_page};
ghost use Rattle.area_rows.specs.Rows.{keeps_by};
ghost use Rattle.area_protect.specs.Looks.{LooksFirst};
ghost use Rattle.area_protect.specs.Protects.{AsksPagesFirst, HasAsked, AnswerAsked, AnswerAskedTo, IsProtected, IsAnswer, IsAnswerTo};
ghost use Rattle.area_protect.specs.Attempts.{MayCall, IsUndecided, ArePagesOf, IsAgain, IsAttempt};

use crate::path::{Path, Protected};
use crate::steps::{Attempt, Request, one_attempt};
use area_rows::{Caller, Space};
use page_types::{Call, Prot, Span, plain};
use space_model::Entry;
use std::marker::Brand;
use std::sync::Wait;
use std::sync::ledger::{Blank, Ledger};
use word_rows::Steps;

/// Attempts, one after another, until one doesn't end at boundaries that have moved.
fn attempts<R: Wait, L: Ledger>(
    space: &Space,
    wait: &R,
    caller: &mut Caller,
    request: Request,
    pages: Span,
    steps: &mut Steps<L>,
) -> Attempt
    requires caller { MayCall space.now.table caller.old }
    requires keeps { keeps_by space.now.table ≡ true }
    requires asked { IsUndecided request }
    requires pages { ArePagesOf request pages }
    ensures free { caller.new.seat.held ≡ None }
    ensures first { LooksFirst caller.old.seat pages.lo pages.hi caller.new.seat }
    ensures asks { AsksPagesFirst pages.lo pages.hi caller.old.seat.trace.asked caller.new.seat.trace.asked }
    ensures attempt { IsAttempt caller.old request caller.new result }
    ensures last { ¬ IsAgain result }
{
    caller.holds_pages();
    let mut last = Attempt::Again;
    for _ in wait.forever() {
        last = one_attempt(space, wait, caller, request, pages, steps);
        match last {
            Attempt::Again => {}
            Attempt::Done { .. } | Attempt::Whole(_) => break,
        }
    }
    last
}

/// A change of protection that its arguments don't decide.
fn protect_counting<L: Ledger, R: Wait>(
    space: &Space,
    wait: &R,
    caller: &mut Caller,
    request: Request,
    blank: Blank,
) -> (Entry, Path)
    requires blank { (blank.name ≡ L.name) × (blank.parts ≡ L.parts) × (0 < L.parts) }
    requires caller { MayCall space.now.table caller.old }
    requires keeps { keeps_by space.now.table ≡ true }
    requires asked { IsUndecided request }
    ensures protected { IsProtected caller.old request.line request.addr request.len request.prot result.0 result.1 caller.new }
    ensures asks { HasAsked (page_of request.addr) (end_page request.addr request.len) result.1 caller.old.seat.trace.asked caller.new.seat.trace.asked }
{
    let mut steps = Steps::<L>::new(blank);
    let pages = Span::of_valid(request.addr, request.len);
    match attempts(space, wait, caller, request, pages, &mut steps) {
        Attempt::Done { entry, seq } => (entry, Path::Area { seq }),
        Attempt::Whole(cause) => {
            let entry = space.call_whole(wait, caller, request.line, request.call());
            (entry, Path::Whole(cause))
        }
        Attempt::Again => unreachable!(),
    }
}

/// Makes a call that is a change of protection, as `protect` does, with the same answers. The call has named bits
/// alone.
pub fn make_protect<R: Wait>(
    space: &Space,
    wait: &R,
    caller: &mut Caller,
    line: u32,
    call: Call,
) -> Protected
    requires table { caller.old.seat.table ≡ space.now.table }
    requires keeps { keeps_by space.now.table ≡ true }
    requires free { caller.old.seat.held ≡ None }
    requires call { IsProtect call }
    requires named { IsNamedCall call }
    ensures answer { IsAnswerTo caller.old line call result caller.new }
    ensures asks { AnswerAskedTo call result caller.old.seat.trace.asked caller.new.seat.trace.asked }
{
    if caller.left() == 0 {
        return Protected::Spent;
    }
    if let Some(reply) = plain(&call) {
        let entry = space.call_plain(caller, line, call, reply);
        return Protected::Given {
            entry,
            path: Path::Free,
        };
    }
    let Call::Protect { addr, len, prot } = call else {
        unreachable!()
    };
    let request = Request {
        line,
        addr,
        len,
        prot,
    };
    let blank = Blank::new(1);
    let (entry, path) = protect_counting::<Brand, R>(space, wait, caller, request, blank);
    Protected::Given { entry, path }
}

/// Changes the protection of the `len` bytes from `addr` on, rounded up to whole pages, as mprotect(2) does. The caller
/// is of this space and holds nothing, and `prot` has named bits alone; `line` is the line of the input that names the
/// call, counted from 1. A change within one area that is sealed, which refuses it, or that leaves the number of rows
/// as it is, holds that area and a page on each side, unless a call under everything came between its steps; every
/// other one holds all pages, and a call that its arguments decide holds nothing. It waits for the callers that hold
/// these pages. The answer says by which way the call went and why. `Spent` comes exactly where the caller has no
/// number left, and nothing has changed then. It takes no memory.
pub fn protect<R: Wait>(
    space: &Space,
    wait: &R,
    caller: &mut Caller,
    line: u32,
    addr: u64,
    len: u64,
    prot: Prot,
) -> Protected
    requires table { caller.old.seat.table ≡ space.now.table }
    requires keeps { keeps_by space.now.table ≡ true }
    requires free { caller.old.seat.held ≡ None }
    requires named { IsNamedCall (Protect addr len prot) }
    ensures answer { IsAnswer caller.old line addr len prot result caller.new }
    ensures asks { AnswerAsked (page_of addr) (end_page addr len) result caller.old.seat.trace.asked caller.new.seat.trace.asked }
{
    make_protect(space, wait, caller, line, Call::Protect { addr, len, prot })
}
