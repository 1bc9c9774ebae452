//! What C calls. Each export answers a code of `specs/Codes.antt`, and its contract says the cause of each. A reader
//! may rely on a handle staying as it was where the answer is a refusal, and on a try that is to be made again having
//! changed nothing but the lock's own words.
ghost use Rattle.std.specs.Prelude.{◌≡◌, ◌<◌, ◌*◌, ◌==◌, None, Some, min};
ghost use Rattle.word_rows.specs.declared.backoff.TheConstants.{LONGEST_WAIT};
ghost use Rattle.area_guard.specs.Reads.{everything};
ghost use Rattle.page_fault.specs.Faults.{page_held_as};
ghost use Rattle.c_handles.specs.Asked.{mode_for, wait_of};
ghost use Rattle.space_c.specs.Behind.{IsGiven};
ghost use Rattle.space_c.specs.Codes.{Says, round_after};
ghost use Rattle.space_c.specs.Calls.{HandleShared, IsEnd, IsFresh, IsOpenRefusal, IsShareRefusal, OnHandle, OnLook, OnTry};
ghost use Rattle.space_c.specs.Looks.{OnArea};
ghost use Rattle.space_c.specs.Shown.{access_from, call_from, fault_from};
ghost use Rattle.space_c.specs.Spans.{OnAreas};

use crate::answers::Answer;
use crate::areas::{GzCounts, SpanAsked, areas_by};
use crate::asked::{GzCall, access_of, call_of};
use crate::calls::{CallAsked, FaultAsked, call_by, fault_by, give_by, look_by, share_by};
use crate::handle::GzSpace;
use crate::looks::{AreaAsked, GzArea, GzSpan, area_by};
use crate::opening::{end, open_space};
use crate::shown::{GzHeld, GzReply};
use crate::state::State;
use c_handles::{mode_of, pause};
use core::mem::{forget, replace};
use std::alloc::Global;

/// Puts an open handle over a box in the place of a closed one.
fn open_over(handle: &mut GzSpace, b: Box<State, Global>)
    requires closed { handle.old.pointer.behind ≡ None }
    ensures open { handle.new.pointer.behind ≡ Some b.value }
{
    let closed = replace(handle, GzSpace::over(b));
    closed.forget();
}

/// Opens an empty space that keeps no history, of so many callers, from 1 to 16, behind a handle that is closed. Its
/// caller has the highest number. The pages are cut into so many regions, from 1 to 16, in blocks of 2^bits pages, with
/// `bits` at most 62: calls at pages of different regions change no word of the lock in common.
#[unsafe(no_mangle)]
pub extern "C" fn gz_space_open(
    alloc: Global,
    callers: u32,
    regions: u32,
    bits: u32,
    handle: &mut GzSpace,
) -> u32
    ensures opened { result ≡ 0 → (handle.old.pointer.behind ≡ None) × IsFresh regions bits callers handle.new.pointer.behind }
    ensures refused { 0 < result → handle.new.pointer.behind ≡ handle.old.pointer.behind }
    ensures cause { 0 < result → Says (IsOpenRefusal regions bits callers handle.old.pointer.behind) result }
{
    if handle.is_open() {
        return Answer::Open.code();
    }
    match open_space(alloc, callers, regions, bits) {
        Ok(b) => {
            open_over(handle, b);
            0
        }
        Err(why) => why.code(),
    }
}

/// Gives a handle that is closed a caller of its own of the space of an open one: the last of those that this one has
/// left.
#[unsafe(no_mangle)]
pub extern "C" fn gz_space_share(alloc: Global, from: &mut GzSpace, handle: &mut GzSpace) -> u32
    ensures shared { result ≡ 0 → (handle.old.pointer.behind ≡ None) × HandleShared from.old.pointer.behind from.new.pointer.behind handle.new.pointer.behind }
    ensures refused { 0 < result → (from.new.pointer.behind ≡ from.old.pointer.behind) × (handle.new.pointer.behind ≡ handle.old.pointer.behind) }
    ensures cause { 0 < result → Says (IsShareRefusal from.old.pointer.behind handle.old.pointer.behind) result }
{
    if handle.is_open() {
        return Answer::Open.code();
    }
    match share_by(from, alloc) {
        Ok(b) => {
            open_over(handle, b);
            0
        }
        Err(why) => why.code(),
    }
}

/// Tries a call once: a Map, an Unmap, a Protect, a Remap, a Seal or a Brk. One that its arguments decide is made at
/// once; any other asks once for all pages as a writer, and is made under them. `round` is 0 before a call's first try,
/// and each try makes of it what the next one is to be given. With `keep` a call that was made under all pages goes on
/// holding them. `reply` is all 0 but where the call was made.
#[unsafe(no_mangle)]
pub extern "C" fn gz_space_try(
    handle: &mut GzSpace,
    call: &GzCall,
    round: &mut u32,
    keep: bool,
    reply: &mut GzReply,
) -> u32
    ensures tried { Says (λ answer. (round.new ≡ round_after answer round.old)
        × OnTry (call_from call.now) everything keep round.old reply.new answer handle.old.pointer.behind handle.new.pointer.behind) result }
{
    let refused = *round;
    let asked = CallAsked {
        call: call_of(call),
        refused,
        keep,
    };
    let (answer, shown) = call_by(handle, asked);
    *reply = shown;
    *round = answer.round_after(refused);
    answer.code()
}

/// Tries once an access to the byte at `addr`, which is one bit of a protection: reading is 1, writing 2, running 4. It
/// asks once for the byte's page, as a writer where it is to be `alone`, and otherwise as a reader, so beside others.
/// With `keep` it goes on holding the page. An access past the last page asks for none.
#[unsafe(no_mangle)]
pub extern "C" fn gz_space_try_fault(
    handle: &mut GzSpace,
    addr: u64,
    access: u32,
    alone: bool,
    keep: bool,
    reply: &mut GzReply,
) -> u32
    ensures tried { Says (λ answer. OnTry (fault_from addr (access_from access)) (page_held_as (mode_for alone) addr) keep 0 reply.new answer
        handle.old.pointer.behind handle.new.pointer.behind) result }
{
    let asked = FaultAsked {
        addr,
        access: access_of(access),
        mode: mode_of(alone),
        keep,
    };
    let (answer, shown) = fault_by(handle, asked);
    *reply = shown;
    answer.code()
}

/// Looks once for the area at a page, with its exact ends, at a moment of the look. It asks once, as a reader, for the
/// pages `around` where the page is one of them, and else for the page alone; `around` becomes what the next look is to
/// be given, and so does `round`, which is 0 before a page's first look. `area` is all 0 after each answer but DONE,
/// and after that too where the page isn't mapped. Nothing is held afterwards.
#[unsafe(no_mangle)]
pub extern "C" fn gz_space_try_area(
    handle: &mut GzSpace,
    page: u64,
    round: &mut u32,
    around: &mut GzSpan,
    area: &mut GzArea,
) -> u32
    ensures looked { Says (λ answer. (round.new ≡ round_after answer round.old)
        × OnArea page around.old round.old around.new area.new answer handle.old.pointer.behind handle.new.pointer.behind) result }
{
    let refused = *round;
    let asked = AreaAsked {
        page,
        named: *around,
        refused,
    };
    let (answer, (next, shown)) = area_by(handle, asked);
    *around = next;
    *area = shown;
    *round = answer.round_after(refused);
    answer.code()
}

/// Looks once for the areas of the pages from `lo` on and below `hi`, each clipped to them, at a moment of the look. It
/// asks once for all these pages as a reader, and then gives them back, or with `keep` goes on holding them. `areas`
/// are places for the first of the areas; those that it doesn't need stay, and so do all after each answer but DONE.
/// `counts` has how many areas there are, with their pages, whatever the places; all 0 after each answer but DONE.
/// `round` is 0 before a span's first look, and becomes what the next one is to be given.
#[unsafe(no_mangle)]
pub extern "C" fn gz_space_try_areas(
    handle: &mut GzSpace,
    lo: u64,
    hi: u64,
    round: &mut u32,
    keep: bool,
    areas: &mut [GzArea],
    counts: &mut GzCounts,
) -> u32
    ensures looked { Says (λ answer. (round.new ≡ round_after answer round.old)
        × OnAreas (record { lo = lo; hi = hi; refused = round.old; keep = keep }) areas.old areas.new counts.new answer
        handle.old.pointer.behind handle.new.pointer.behind) result }
{
    let refused = *round;
    let asked = SpanAsked {
        lo,
        hi,
        refused,
        keep,
    };
    let (answer, shown) = areas_by(handle, asked, areas);
    *counts = shown;
    *round = answer.round_after(refused);
    answer.code()
}

/// Gives the pages back that the handle holds.
#[unsafe(no_mangle)]
pub extern "C" fn gz_space_done(handle: &mut GzSpace) -> u32
    ensures given { Says (λ answer. OnHandle IsGiven answer handle.old.pointer.behind handle.new.pointer.behind) result }
{
    give_by(handle).code()
}

/// Tells what the handle holds, and the number of its caller. Nothing changes.
#[unsafe(no_mangle)]
pub extern "C" fn gz_space_held(handle: &mut GzSpace, held: &mut GzHeld) -> u32
    ensures looked { Says (λ answer. OnLook held.new answer handle.old.pointer.behind handle.new.pointer.behind) result }
{
    let (answer, shown) = look_by(handle);
    *held = shown;
    answer.code()
}

/// Waits between two tries of a caller that waits by itself, as `acquire` of `range_rw` waits, but without yielding the
/// processor: as many turns as `turns` says, or as near to that as the shortest and the longest wait allow. `turns` is
/// 0 at first, and becomes the number of the next wait. Says whether this one was one of the longest, behind which the
/// processor is to be yielded.
#[unsafe(no_mangle)]
pub extern "C" fn gz_space_pause(turns: &mut u32) -> bool
    ensures longer { turns.new ≡ min (2 * wait_of turns.old) LONGEST_WAIT }
    ensures longest { result ≡ (wait_of turns.old == LONGEST_WAIT) }
{
    pause(turns)
}

/// Puts a closed handle in the place of a handle, and ends what that was: gives back what it held, and lets its caller
/// and those that it had left to share go, with its share of the space. The last handle of a space frees it. A closed
/// handle has nothing to end. Where the handle that is to be put there is open, nothing is done.
#[unsafe(no_mangle)]
pub extern "C" fn gz_space_end(handle: &mut GzSpace, next: GzSpace) -> u32
    ensures ended { Says (IsEnd next.pointer.behind handle.old.pointer.behind handle.new.pointer.behind) result }
{
    if next.is_open() {
        forget(next.into_box());
        return Answer::Open.code();
    }
    let was = replace(handle, next);
    if !was.is_open() {
        was.forget();
        return Answer::Closed.code();
    }
    end(was.into_box());
    Answer::Done.code()
}
