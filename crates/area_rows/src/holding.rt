//! A caller takes a range of pages and gives it back, by the calls of the range lock. A reader may rely on the caller
//! holding the range where `acquire` returns, and on a release keeping what the caller has seen and numbered.
ghost use Rattle.std.specs.Prelude.{◌≡◌, ◌≤◌, ◌+◌, ◌*◌, ◌↔◌, ℕ, Some, None, IsSome, IsNone, IfErr, IfSome, OnOk, OnErr};
ghost use Rattle.list_cuts.specs.Cut.{list_count, TakesTwo};
ghost use Rattle.word_rows.specs.declared.backoff.TheConstants.{REFUSED_ROUNDS, KEPT_LOOKS};
ghost use Rattle.range_rw.specs.Contract.{AsksFor, AsksOnly, IsLockCall, IsRelease, IsCause, IsLongRefusal, IsReadyLeft, IsRefusedAfter, IsSpentIn, pools_at};
ghost use Rattle.range_rw.specs.Several.{TakesAlone};
ghost use Rattle.area_guard.specs.History.{rest_of, IsAtRest};
ghost use Rattle.area_rows.specs.Callers.{held_span};

use crate::space::{Caller, Space};
use lock_core::{Mode, Range};
use page_types::Span;
use range_rw::{Anew, NotHeld};
use std::sync::Wait;
use std::sync::ledger::Ledger;
use word_rows::Steps;

/// The numbers of a span's pages.
fn range_of(span: Span) -> Range
    ensures lo { result.lo ≡ span.lo }
    ensures hi { result.hi ≡ span.hi }
{
    let Ok(range) = Range::of(span.lo(), span.hi()) else {
        unreachable!()
    };
    range
}

impl Space {
    /// Tries until the caller holds the span, and waits for other callers meanwhile. The caller is of this space and
    /// holds nothing, so it has written what it has numbered.
    pub fn acquire<R: Wait>(&self, wait: &R, caller: &mut Caller, span: Span, mode: Mode)
        requires table { caller.old.seat.table ≡ self.now.table }
        requires free { caller.old.seat.held ≡ None }
        ensures call { IsLockCall caller.old.seat caller.new.seat }
        ensures asks { AsksFor (held_span span mode) caller.old.seat.trace.asked caller.new.seat.trace.asked }
        ensures held { caller.new.seat.held ≡ Some (held_span span mode) }
        ensures rest { IsAtRest caller.new.seat.pass }
        ensures left { caller.new.left ≡ caller.old.left }
    {
        self.table
            .acquire(wait, &mut caller.seat, range_of(span), mode);
    }

    /// One round of `acquire`, for a caller that waits between two rounds by itself, as one in a library that may not
    /// wait. `refused` says how many of its rounds were refused since the last one with further looks: 0 at first, and
    /// `next_refused` of `range_rw` of it after each round that doesn't hold the span. After `Anew::Later` the caller
    /// is to wait, and after `Anew::AtOnce` to begin the next round at once. A round waits for no other thread.
    pub fn acquire_round(
        &self,
        caller: &mut Caller,
        span: Span,
        mode: Mode,
        refused: u32,
    ) -> Result<(), Anew>
        requires table { caller.old.seat.table ≡ self.now.table }
        requires free { caller.old.seat.held ≡ None }
        ensures call { IsLockCall caller.old.seat caller.new.seat }
        ensures asks { AsksOnly (held_span span mode) caller.old.seat.trace.asked caller.new.seat.trace.asked }
        ensures gets { OnOk result (AsksFor (held_span span mode) caller.old.seat.trace.asked caller.new.seat.trace.asked) }
        ensures held { OnOk result (caller.new.seat.held ≡ Some (held_span span mode)) }
        ensures free { OnErr result (caller.new.seat.held ≡ None) }
        ensures rest { IsAtRest caller.new.seat.pass }
        ensures left { caller.new.left ≡ caller.old.left }
        ensures kept { OnErr result (TakesTwo self.now.cut (held_span span mode).range → REFUSED_ROUNDS ≤ refused
            → IsRefusedAfter self.now.cut KEPT_LOOKS caller.old.seat caller.new.seat) }
    {
        self.table
            .acquire_round(&mut caller.seat, range_of(span), mode, refused)
    }

    /// What the caller holds, if anything, and in which mode. The caller is of this space.
    pub fn held(&self, caller: &Caller) -> Option<(Range, Mode)>
        requires table { caller.now.seat.table ≡ self.now.table }
        ensures some { IfSome result (λ r. caller.now.seat.held ≡ Some (record { range = r.0; mode = r.1 })) }
        ensures none { IsNone result ↔ (caller.now.seat.held ≡ None) }
    {
        self.table.held(&caller.seat)
    }

    /// Tries once to hold the span, and waits for nobody. The caller is of this space and holds nothing.
    /// `Busy` names a range of another caller, held or asked for, that was in conflict at a step of this call. `Again`
    /// names an exchange of this call that found another value than it expected: another caller changed the lock's
    /// list there. `Long` comes exactly where a walk of this call looked at 16 nodes for each caller and one more and
    /// made nothing held. `NoNode` comes where no node of the caller was ready, and none could be made so after a sweep
    /// of the list. After a refusal the caller knows and holds what it did before; its ready nodes in a list, if it had
    /// any there, are as they were or without the first one.
    /// At most 64 steps and 386 for each caller, whatever other callers do, where the span takes one list, as every
    /// span does in a space of one; a wide span takes at most that for each list of the space.
    pub fn try_acquire<L: Ledger>(
        &self,
        caller: &mut Caller,
        span: Span,
        mode: Mode,
        steps: &mut Steps<L>,
    ) -> Result<(), NotHeld>
        requires table { caller.old.seat.table ≡ self.now.table }
        requires free { caller.old.seat.held ≡ None }
        ensures call { IsLockCall caller.old.seat caller.new.seat }
        ensures asks { AsksOnly (held_span span mode) caller.old.seat.trace.asked caller.new.seat.trace.asked }
        ensures held { OnOk result (caller.new.seat.held ≡ Some (held_span span mode)) }
        ensures free { OnErr result (caller.new.seat.held ≡ None) }
        ensures rest { IsAtRest caller.new.seat.pass }
        ensures cause { IfErr result (IsCause caller.old.seat caller.new.seat (held_span span mode)) }
        ensures long { IfErr result (λ why. IsLongRefusal why ↔ IsSpentIn self.now.seats caller.old.seat caller.new.seat) }
        ensures ready { IsReadyLeft caller.old.seat.pools.ready caller.new.seat.pools.ready }
        ensures further { (j : ℕ) → IsReadyLeft (pools_at caller.old.seat j).ready (pools_at caller.new.seat j).ready }
        ensures left { caller.new.left ≡ caller.old.left }
        ensures bound { TakesAlone self.now.cut (held_span span mode).range
            → caller.new.seat.trace.taken ≤ caller.old.seat.trace.taken + (64 + 386 * self.now.seats) }
        ensures wide { caller.new.seat.trace.taken ≤ caller.old.seat.trace.taken + (64 + 386 * self.now.seats) * list_count self.now.cut }
        ensures counted { steps.new + caller.old.seat.trace.taken ≡ steps.old + caller.new.seat.trace.taken }
    {
        self.table
            .try_acquire(&mut caller.seat, range_of(span), mode, steps)
    }

    /// The same as `release`, without a counter of steps.
    pub fn release_uncounted(&self, caller: &mut Caller)
        requires table { caller.old.seat.table ≡ self.now.table }
        requires holds { IsSome caller.old.seat.held }
        requires rest { IsAtRest caller.old.seat.pass }
        ensures release { IsRelease rest_of caller.old.seat caller.new.seat }
        ensures left { caller.new.left ≡ caller.old.left }
    {
        self.table.release_uncounted(&mut caller.seat);
    }

    /// Gives the held range back, in one step or two. The caller is of this space and has written what it has numbered;
    /// what it has seen and numbered stays.
    pub fn release<L: Ledger>(&self, caller: &mut Caller, steps: &mut Steps<L>)
        requires table { caller.old.seat.table ≡ self.now.table }
        requires holds { IsSome caller.old.seat.held }
        requires rest { IsAtRest caller.old.seat.pass }
        ensures release { IsRelease rest_of caller.old.seat caller.new.seat }
        ensures left { caller.new.left ≡ caller.old.left }
        ensures counted { steps.new + caller.old.seat.trace.taken ≡ steps.old + caller.new.seat.trace.taken }
    {
        self.table.release(&mut caller.seat, steps);
    }
}
