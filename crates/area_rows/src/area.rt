//! The plan of a change of protection over the area that its caller holds, as `plan` is that of a call under
//! everything. A sealed area refuses it, as mseal(2) says. Else four ways leave the number of rows as it is: nothing
//! changes, the whole area changes, its first pages go to the area before it, or its last pages to the area behind it.
//! This is the speculative mprotect of Kogan, Dice and Issa, EuroSys 2020; a reader may rely on `IsAreaPlan`
//! (`specs/AreaPlans.antt`).
ghost use Rattle.std.specs.Prelude.{◌≡◌, ◌<◌, ◌≤◌, ◌+◌, None, Some};
ghost use Rattle.page_types.specs.declared.TheConstants.{LIMIT};
ghost use Rattle.page_types.specs.declared.calls.Call.TheVariants.{Protect};
ghost use Rattle.page_types.specs.Named.{IsNamedCall, IsNamedKind};
ghost use Rattle.page_types.specs.Pages.{page_of, end_page};
ghost use Rattle.page_types.specs.PlainReply.{plain_reply};
ghost use Rattle.area_guard.specs.Changes.{alone};
ghost use Rattle.area_rows.specs.OneStore.{IsRound};
ghost use Rattle.area_guard.specs.History.{IsAtRest};
ghost use Rattle.area_rows.specs.Callers.{IsAsRead, IsReading, RowIs, Shows};
ghost use Rattle.area_rows.specs.AreaPlans.{IsChosen, IsAreaPlan, planned_change};

use crate::row::Row;
use crate::space::{Caller, Space};
use area_guard::Change;
use page_types::{Kind, Prot, Reply, Span, Why};

/// What a change of protection over the area that its caller holds comes to. Each that is numbered over the area has
/// the call's reply.
#[derive(Clone, Copy, Debug, PartialEq, Eq)]
pub enum AreaPlan {
    /// It would leave another number of rows, so it has to hold all pages.
    NotSimple,
    /// The area is sealed: the reply is the refusal of the call's first page, and nothing changes.
    Sealed(Reply),
    /// It changes nothing.
    Same(Reply),
    /// The whole area gets another kind: `set_kind` writes it.
    SetKind(Change, Reply),
    /// A boundary of the area moves: `move_start` writes it.
    MoveStart(Change, Reply),
}

/// The row that a plan changes.
fn change_in(plan: AreaPlan) -> Option<Change>
    ensures { result ≡ planned_change plan }
{
    match plan {
        AreaPlan::SetKind(change, _) | AreaPlan::MoveStart(change, _) => Some(change),
        AreaPlan::NotSimple | AreaPlan::Sealed(_) | AreaPlan::Same(_) => None,
    }
}

/// Whether the area is sealed, and else which of the four ways it is, by the kinds of the page before the row and of
/// the page behind it, None where there is none. `change` has the pages of the call, which lie in the row, and their
/// kinds, and names the slot of the row as if this changed whole; `next` is the one behind it.
fn choose(
    row: &Row,
    next: u32,
    change: Change,
    before: Option<Kind>,
    behind: Option<Kind>,
) -> AreaPlan
    requires from { row.now.lo ≤ change.place.lo }
    requires until { change.place.hi ≤ row.now.hi }
    requires at { (change.start ≡ row.now.lo) × (change.kind ≡ change.new) }
    ensures { IsChosen row.now next change before behind result }
{
    if change.old.sealed {
        return AreaPlan::Sealed(Reply::Refused(Why::Eperm(change.place.lo)));
    }
    let new = change.new;
    if new == change.old {
        return AreaPlan::Same(Reply::Zero);
    }
    let place = change.place;
    if place.lo == row.lo && place.hi == row.hi {
        if before == Some(new) || behind == Some(new) {
            return AreaPlan::NotSimple;
        }
        return AreaPlan::SetKind(change, Reply::Zero);
    }
    if place.lo == row.lo && before == Some(new) {
        let moved = Change {
            start: place.hi,
            kind: change.old,
            ..change
        };
        return AreaPlan::MoveStart(moved, Reply::Zero);
    }
    if place.hi == row.hi && behind == Some(new) {
        let moved = Change {
            index: next,
            start: place.lo,
            ..change
        };
        return AreaPlan::MoveStart(moved, Reply::Zero);
    }
    AreaPlan::NotSimple
}

impl Space {
    /// Plans a Protect of pages that lie in one area: whether the area is sealed, which refuses it, or it leaves the
    /// number of rows as it is, its reply where either is so, and which row it changes, which goes into the caller's
    /// own room. The caller is of this space, has read the area's row under the range that it holds, which is the area
    /// and a page on each side as a writer, and has written what it has numbered. The plan is right until the caller
    /// draws a number or gives the range back. It takes no memory, and at most five steps, however many rows there are:
    /// at most three find the rows beside the area's, and two read them.
    pub fn plan_area(
        &self,
        caller: &mut Caller,
        addr: u64,
        len: u64,
        prot: Prot,
        row: &Row,
        kind: Kind,
        span: Span,
    ) -> AreaPlan
        requires table { caller.old.seat.table ≡ self.now.table }
        requires held { caller.old.seat.held ≡ Some (alone span) }
        requires round { IsRound row.now span }
        requires rest { IsAtRest caller.old.seat.pass }
        requires named { IsNamedCall (Protect addr len prot) }
        requires undecided { plain_reply (Protect addr len prot) ≡ None }
        requires kind { row.now.kind ≡ Some kind }
        requires named_kind { IsNamedKind kind }
        requires from { row.now.lo ≤ page_of addr }
        requires until { end_page addr len ≤ row.now.hi }
        requires limit { row.now.hi ≤ LIMIT }
        requires read { IsAsRead caller.old.seat.pass row.now }
        requires shows { Shows caller.old.seat (RowIs caller.old.seat.held (page_of addr) row.now) }
        ensures plan { IsAreaPlan caller.new (Protect addr len prot) span (page_of addr) (end_page addr len) result }
        ensures reading { IsReading caller.old.seat caller.new.seat }
        ensures left { caller.new.left ≡ caller.old.left }
        ensures loads { caller.new.seat.trace.taken ≤ caller.old.seat.trace.taken + 5 }
    {
        caller.holds_pages();
        let beside = self.beside(caller, row.index);
        let before = self.kind_in(caller, beside.before);
        let behind = self.kind_in(caller, beside.behind);
        let new = Kind { prot, ..kind };
        let change = Change {
            index: beside.own,
            start: row.lo,
            kind: new,
            span,
            place: Span::of_valid(addr, len),
            old: kind,
            new,
        };
        let plan = choose(row, beside.behind.unwrap_or(0), change, before, behind);
        caller.change = change_in(plan);
        plan
    }
}
