//! The calls on a handle: where it is open, what is behind it is taken out, worked with and put back. A reader may rely
//! on a closed handle being told and left as it is.
ghost use Rattle.std.specs.Prelude.{◌≡◌, IfOk, IfErr, IfSome};
ghost use Rattle.page_types.specs.Classes.{IsFault};
ghost use Rattle.page_types.specs.Named.{IsNamedCall};
ghost use Rattle.area_guard.specs.Reads.{everything};
ghost use Rattle.page_fault.specs.Faults.{page_held_as};
ghost use Rattle.c_handles.specs.Handles.{Between, IsOpen};
ghost use Rattle.space_c.specs.Behind.{IsGiven, IsNotShared, IsShared, IsTried};
ghost use Rattle.space_c.specs.Calls.{OnHandle, OnLook, OnTry};
ghost use Rattle.space_c.specs.Shown.{fault_from};

use crate::answers::Answer;
use crate::handle::GzSpace;
use crate::shown::{GzHeld, GzReply, NOTHING};
use crate::state::State;
use core::mem::replace_with;
use lock_core::Mode;
use page_types::{Access, Call};
use std::alloc::Global;

/// A call that C asks for, how many of its rounds were refused, and whether its pages are kept.
#[derive(Clone, Copy, Drop)]
pub(crate) struct CallAsked {
    pub(crate) call: Option<Call>,
    pub(crate) refused: u32,
    pub(crate) keep: bool,
}

fn call_behind(handle: GzSpace, asked: CallAsked) -> (GzSpace, (Answer, GzReply))
    requires open { IsOpen handle.pointer.behind }
    requires proper { IfSome asked.call (λ call. (¬ IsFault call) × IsNamedCall call) }
    ensures tried { OnTry asked.call everything asked.keep asked.refused result.1.1 result.1.0 handle.pointer.behind result.0.pointer.behind }
{
    let mut b = handle.into_box();
    let tried = b.try_call(asked.call, asked.refused, asked.keep);
    (GzSpace::over(b), tried)
}

/// Tries the call that C asks for.
pub(crate) fn call_by(handle: &mut GzSpace, asked: CallAsked) -> (Answer, GzReply)
    requires proper { IfSome asked.call (λ call. (¬ IsFault call) × IsNamedCall call) }
    ensures tried { OnTry asked.call everything asked.keep asked.refused result.1 result.0 handle.old.pointer.behind handle.new.pointer.behind }
{
    if !handle.is_open() {
        return (Answer::Closed, NOTHING);
    }
    replace_with(handle, asked, call_behind)
}

/// A fault that C asks for, in which mode its page is held, and whether it is kept.
#[derive(Clone, Copy, Drop)]
pub(crate) struct FaultAsked {
    pub(crate) addr: u64,
    pub(crate) access: Option<Access>,
    pub(crate) mode: Mode,
    pub(crate) keep: bool,
}

fn fault_behind(handle: GzSpace, asked: FaultAsked) -> (GzSpace, (Answer, GzReply))
    requires open { IsOpen handle.pointer.behind }
    ensures tried { OnTry (fault_from asked.addr asked.access) (page_held_as asked.mode asked.addr) asked.keep 0 result.1.1 result.1.0
        handle.pointer.behind result.0.pointer.behind }
{
    let mut b = handle.into_box();
    let tried = b.try_fault(asked.addr, asked.access, asked.mode, asked.keep);
    (GzSpace::over(b), tried)
}

/// Tries the fault that C asks for.
pub(crate) fn fault_by(handle: &mut GzSpace, asked: FaultAsked) -> (Answer, GzReply)
    ensures tried { OnTry (fault_from asked.addr asked.access) (page_held_as asked.mode asked.addr) asked.keep 0 result.1 result.0
        handle.old.pointer.behind handle.new.pointer.behind }
{
    if !handle.is_open() {
        return (Answer::Closed, NOTHING);
    }
    replace_with(handle, asked, fault_behind)
}

fn give_behind(handle: GzSpace, _unit: ()) -> (GzSpace, Answer)
    requires open { IsOpen handle.pointer.behind }
    ensures given { OnHandle IsGiven result.1 handle.pointer.behind result.0.pointer.behind }
{
    let mut b = handle.into_box();
    let answer = b.give();
    (GzSpace::over(b), answer)
}

/// Gives back what is held.
pub(crate) fn give_by(handle: &mut GzSpace) -> Answer
    ensures given { OnHandle IsGiven result handle.old.pointer.behind handle.new.pointer.behind }
{
    if !handle.is_open() {
        return Answer::Closed;
    }
    replace_with(handle, (), give_behind)
}

fn look_behind(handle: GzSpace, _unit: ()) -> (GzSpace, (Answer, GzHeld))
    requires open { IsOpen handle.pointer.behind }
    ensures looked { OnLook result.1.1 result.1.0 handle.pointer.behind result.0.pointer.behind }
{
    let b = handle.into_box();
    let looked = b.look();
    (GzSpace::over(b), looked)
}

/// What the handle holds, with the number of its caller.
pub(crate) fn look_by(handle: &mut GzSpace) -> (Answer, GzHeld)
    ensures looked { OnLook result.1 result.0 handle.old.pointer.behind handle.new.pointer.behind }
{
    if !handle.is_open() {
        let none = GzHeld {
            lo: 0,
            hi: 0,
            caller: 0,
            writer: 0,
        };
        return (Answer::Closed, none);
    }
    replace_with(handle, (), look_behind)
}

fn share_behind(handle: GzSpace, alloc: Global) -> (GzSpace, Result<Box<State, Global>, Answer>)
    requires open { IsOpen handle.pointer.behind }
    ensures shared { IfOk result.1 (λ b. Between (λ old new. IsShared old new b.value) handle.pointer.behind result.0.pointer.behind) }
    ensures refused { IfErr result.1 (λ why. OnHandle IsNotShared why handle.pointer.behind result.0.pointer.behind) }
{
    let mut b = handle.into_box();
    let answer = b.share(alloc);
    (GzSpace::over(b), answer)
}

/// Takes a caller out for one more handle.
pub(crate) fn share_by(handle: &mut GzSpace, alloc: Global) -> Result<Box<State, Global>, Answer>
    ensures shared { IfOk result (λ b. Between (λ old new. IsShared old new b.value) handle.old.pointer.behind handle.new.pointer.behind) }
    ensures refused { IfErr result (λ why. OnHandle IsNotShared why handle.old.pointer.behind handle.new.pointer.behind) }
{
    if !handle.is_open() {
        return Err(Answer::Closed);
    }
    replace_with(handle, alloc, share_behind)
}
