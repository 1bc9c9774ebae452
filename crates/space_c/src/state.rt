//! What is behind an open handle: an owner of the space, one caller of it, and the callers that no handle has had yet.
//! Each call of C's is a method here. A reader may rely on the caller having written what it has numbered between
//! calls, and on those that are left to share being as they were at the opening.
ghost use Rattle.std.specs.Prelude.{◌≡◌, ◌<◌, Some, None, IfOk, IfErr, IfSome, IsNone};
ghost use Rattle.page_types.specs.Classes.{IsFault};
ghost use Rattle.page_types.specs.Named.{IsNamedCall};
ghost use Rattle.page_types.specs.declared.calls.Call.TheVariants.{Fault};
ghost use Rattle.area_guard.specs.Reads.{everything};
ghost use Rattle.page_fault.specs.Faults.{page_held_as};
ghost use Rattle.space_c.specs.Behind.{IsBarred, IsGiven, IsLooked, IsMade, IsRefusedRound, IsTried, WithCaller, answer_of, shown_of};
ghost use Rattle.space_c.specs.Shown.{fault_from};

use crate::answers::Answer;
use crate::rounds::{make_call, make_fault};
use crate::shown::{GzHeld, GzReply, NOTHING, bit_of_mode, show_reply};
use area_rows::{Caller, Space};
use lock_core::Mode;
use page_types::{Access, Call};
use range_rw::Anew;
use space_model::Entry;
use std::alloc::Global;
use std::marker::Model;
use std::sync::Arc;

/// An owner of the space, a caller, and the callers that are left to share.
#[derive(Drop)]
pub(crate) struct State {
    pub(crate) space: Arc<Space, Global>,
    pub(crate) caller: Caller,
    pub(crate) spare: Vec<Caller>,
}

impl Model for State {
    ghost use Rattle.std.specs.Prelude.{◌≡◌, false, length};
    ghost use Rattle.std.specs.Arc.{arc_value};
    ghost use Rattle.list_cuts.specs.Cut.{list_count};
    ghost use Rattle.area_guard.specs.History.{IsAtRest};
    ghost use Rattle.area_guard.specs.Rows.{keeps_by};
    ghost use Rattle.space_c.specs.Behind.{AreNewCallers, Behind};

    ghost Value = { Behind };

    ghost view = { λ s. record { caller = s.caller; spare = length s.spare.items; callers = (arc_value s.space).seats; cut = (arc_value s.space).cut } };

    ghost invariant = { λ s. (s.caller.seat.table ≡ (arc_value s.space).table) × (keeps_by s.caller.seat.table ≡ false) × IsAtRest s.caller.seat.pass
        × AreNewCallers (list_count (arc_value s.space).cut) (arc_value s.space).table s.spare.items };
}

/// What a round came to, as an answer and as C is shown it.
fn tell(made: Result<Entry, Anew>) -> (Answer, GzReply)
    ensures answer { result.0 ≡ answer_of made }
    ensures shown { result.1 ≡ shown_of made }
{
    match made {
        Ok(entry) => (Answer::Done, show_reply(entry.reply)),
        Err(Anew::Later) => (Answer::Later, NOTHING),
        Err(Anew::AtOnce) => (Answer::AtOnce, NOTHING),
    }
}

impl State {
    /// Why no call may be tried, if there is a cause.
    fn bar(&self) -> Option<Answer>
        ensures free { IsNone result → (self.now.caller.seat.held ≡ None) × (0 < self.now.caller.left) }
        ensures barred { IfSome result (λ why. IsBarred why self.now.caller) }
    {
        if self.space.held(&self.caller).is_some() {
            return Some(Answer::Holds);
        }
        if self.caller.left() == 0 {
            return Some(Answer::Spent);
        }
        None
    }

    /// One round of a call that is no fault.
    fn call_once(&mut self, call: Call, refused: u32, keep: bool) -> Result<Entry, Anew>
        requires free { self.old.caller.seat.held ≡ None }
        requires left { 0 < self.old.caller.left }
        requires proper { (¬ IsFault call) × IsNamedCall call }
        ensures made { IfOk result (λ e. IsMade everything call keep self.old.caller e self.new.caller) }
        ensures refused { IfErr result (λ _. IsRefusedRound self.old.cut everything call refused self.old.caller self.new.caller) }
        ensures kept { WithCaller self.old self.new }
    {
        make_call(&self.space, &mut self.caller, call, refused, keep)
    }

    /// One round of a fault, under its page in this mode.
    fn fault_once(
        &mut self,
        addr: u64,
        access: Access,
        mode: Mode,
        keep: bool,
    ) -> Result<Entry, Anew>
        requires free { self.old.caller.seat.held ≡ None }
        requires left { 0 < self.old.caller.left }
        ensures made { IfOk result (λ e. IsMade (page_held_as mode addr) (Fault addr access) keep self.old.caller e self.new.caller) }
        ensures refused { IfErr result (λ _. IsRefusedRound self.old.cut (page_held_as mode addr) (Fault addr access) 0 self.old.caller self.new.caller) }
        ensures kept { WithCaller self.old self.new }
    {
        make_fault(&self.space, &mut self.caller, addr, access, mode, keep)
    }

    /// Tries the call that C asks for once.
    pub(crate) fn try_call(
        &mut self,
        asked: Option<Call>,
        refused: u32,
        keep: bool,
    ) -> (Answer, GzReply)
        requires proper { IfSome asked (λ call. (¬ IsFault call) × IsNamedCall call) }
        ensures { IsTried asked everything keep refused result.1 result.0 self.old self.new }
    {
        let Some(call) = asked else {
            return (Answer::BadCall, NOTHING);
        };
        if let Some(why) = self.bar() {
            return (why, NOTHING);
        }
        tell(self.call_once(call, refused, keep))
    }

    /// Tries the fault that C asks for once.
    pub(crate) fn try_fault(
        &mut self,
        addr: u64,
        asked: Option<Access>,
        mode: Mode,
        keep: bool,
    ) -> (Answer, GzReply)
        ensures { IsTried (fault_from addr asked) (page_held_as mode addr) keep 0 result.1 result.0 self.old self.new }
    {
        let Some(access) = asked else {
            return (Answer::BadCall, NOTHING);
        };
        if let Some(why) = self.bar() {
            return (why, NOTHING);
        }
        tell(self.fault_once(addr, access, mode, keep))
    }

    /// Gives back what the caller holds.
    pub(crate) fn give(&mut self) -> Answer
        ensures given { IsGiven result self.old self.new }
        ensures free { self.new.caller.seat.held ≡ None }
    {
        if self.space.held(&self.caller).is_none() {
            return Answer::HasNone;
        }
        self.space.release_uncounted(&mut self.caller);
        Answer::Done
    }

    /// What the caller holds, with its number, as C is shown it.
    pub(crate) fn look(&self) -> (Answer, GzHeld)
        ensures looked { IsLooked result.1 result.0 self.now self.now }
    {
        let caller = self.caller.worker();
        match self.space.held(&self.caller) {
            Some((range, mode)) => {
                let shown = GzHeld {
                    lo: range.lo(),
                    hi: range.hi(),
                    caller,
                    writer: bit_of_mode(mode),
                };
                (Answer::Done, shown)
            }
            None => (
                Answer::HasNone,
                GzHeld {
                    lo: 0,
                    hi: 0,
                    caller,
                    writer: 0,
                },
            ),
        }
    }
}
