//! The calls on a handle: where it is open, what is behind it is taken out, worked with and put back. A reader may rely
//! on a closed handle being told and left as it is.
ghost use Rattle.std.specs.Prelude.{◌≡◌, Some, IfOk, IfErr};
ghost use Rattle.c_handles.specs.Handles.{Between, IsOpen};
ghost use Rattle.range_c.specs.Behind.{IsTried, IsReleased, IsShared, IsNotShared};
ghost use Rattle.range_c.specs.Calls.{OnHandle, OnLook, OnScan, OnTries, OnWord};

use crate::answers::{Answer, GzBusy, NOTHING};
use crate::handle::GzRange;
use crate::recording::WordStep;
use crate::state::{Asked, State};
use core::mem::{forget, replace, replace_with};
use std::alloc::Global;

fn try_behind(handle: GzRange, asked: Asked) -> (GzRange, (Answer, u32))
    requires open { IsOpen handle.pointer.behind }
    ensures tried { OnHandle (IsTried asked.lo asked.hi asked.writer asked.tries) result.1.0 handle.pointer.behind result.0.pointer.behind }
    ensures made { OnTries asked.lo asked.hi asked.writer asked.tries result.1.1 result.1.0 handle.pointer.behind result.0.pointer.behind }
{
    let mut b = handle.into_box();
    let tried = b.try_asked(asked);
    (GzRange::over(b), tried)
}

/// Tries for the range that C asks for, and tells how many tries were made.
pub(crate) fn try_by(handle: &mut GzRange, asked: Asked) -> (Answer, u32)
    ensures tried { OnHandle (IsTried asked.lo asked.hi asked.writer asked.tries) result.0 handle.old.pointer.behind handle.new.pointer.behind }
    ensures made { OnTries asked.lo asked.hi asked.writer asked.tries result.1 result.0 handle.old.pointer.behind handle.new.pointer.behind }
{
    if !handle.is_open() {
        return (Answer::Closed, 0);
    }
    replace_with(handle, asked, try_behind)
}

fn release_behind(handle: GzRange, _unit: ()) -> (GzRange, Answer)
    requires open { IsOpen handle.pointer.behind }
    ensures released { OnHandle IsReleased result.1 handle.pointer.behind result.0.pointer.behind }
{
    let mut b = handle.into_box();
    let answer = b.release();
    (GzRange::over(b), answer)
}

/// Gives the held range back.
pub(crate) fn release_by(handle: &mut GzRange) -> Answer
    ensures released { OnHandle IsReleased result handle.old.pointer.behind handle.new.pointer.behind }
{
    if !handle.is_open() {
        return Answer::Closed;
    }
    replace_with(handle, (), release_behind)
}

fn look_behind(handle: GzRange, _unit: ()) -> (GzRange, (Answer, GzBusy))
    requires open { IsOpen handle.pointer.behind }
    ensures looked { OnLook result.1.1 result.1.0 handle.pointer.behind result.0.pointer.behind }
{
    let b = handle.into_box();
    let looked = b.look();
    (GzRange::over(b), looked)
}

/// What the handle holds, with the number of its seat.
pub(crate) fn look_by(handle: &mut GzRange) -> (Answer, GzBusy)
    ensures looked { OnLook result.1 result.0 handle.old.pointer.behind handle.new.pointer.behind }
{
    if !handle.is_open() {
        return (Answer::Closed, NOTHING);
    }
    replace_with(handle, (), look_behind)
}

/// Shows the ranges that a scan went past, and says how many. Meanwhile a closed handle is in the place of the handle.
pub(crate) fn scan_by(handle: &mut GzRange, next: GzRange, ranges: &mut [GzBusy]) -> (Answer, usize)
    ensures scanned { OnScan next.pointer.behind ranges.old ranges.new result.1 result.0 handle.old.pointer.behind handle.new.pointer.behind }
{
    if next.is_open() {
        forget(next.into_box());
        return (Answer::Open, 0);
    }
    let was = replace(handle, next);
    if !was.is_open() {
        was.forget();
        return (Answer::Closed, 0);
    }
    let mut b = was.into_box();
    let scanned = b.scan(ranges);
    let closed = replace(handle, GzRange::over(b));
    closed.forget();
    scanned
}

/// A step on the client word of a number, counted from 0, and what is to be told where it finds no value.
#[derive(Clone, Copy, Drop)]
pub(crate) struct WordCall {
    pub(crate) i: u32,
    pub(crate) step: WordStep,
    pub(crate) told: u64,
}

fn step_behind(handle: GzRange, call: WordCall) -> (GzRange, (Answer, u64))
    requires open { IsOpen handle.pointer.behind }
    ensures stepped { OnWord call.i call.step call.told result.1.1 result.1.0 handle.pointer.behind result.0.pointer.behind }
{
    let mut b = handle.into_box();
    let answer = b.step(call.i, call.step, call.told);
    (GzRange::over(b), answer)
}

/// Makes a step on a client word, and returns what a load, an addition or an exchange found. Where none found a value,
/// that is what the call brought.
pub(crate) fn step_by(handle: &mut GzRange, call: WordCall) -> (Answer, u64)
    ensures stepped { OnWord call.i call.step call.told result.1 result.0 handle.old.pointer.behind handle.new.pointer.behind }
{
    if !handle.is_open() {
        return (Answer::Closed, call.told);
    }
    replace_with(handle, call, step_behind)
}

fn share_behind(handle: GzRange, alloc: Global) -> (GzRange, Result<Box<State, Global>, Answer>)
    requires open { IsOpen handle.pointer.behind }
    ensures shared { IfOk result.1 (λ b. Between (λ old new. IsShared old new b.value) handle.pointer.behind result.0.pointer.behind) }
    ensures refused { IfErr result.1 (λ why. OnHandle IsNotShared why handle.pointer.behind result.0.pointer.behind) }
{
    let mut b = handle.into_box();
    let answer = b.share(alloc);
    (GzRange::over(b), answer)
}

/// Takes a seat out for one more handle.
pub(crate) fn share_by(handle: &mut GzRange, alloc: Global) -> Result<Box<State, Global>, Answer>
    ensures shared { IfOk result (λ b. Between (λ old new. IsShared old new b.value) handle.old.pointer.behind handle.new.pointer.behind) }
    ensures refused { IfErr result (λ why. OnHandle IsNotShared why handle.old.pointer.behind handle.new.pointer.behind) }
{
    if !handle.is_open() {
        return Err(Answer::Closed);
    }
    replace_with(handle, alloc, share_behind)
}
