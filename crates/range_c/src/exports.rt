//! What C calls. Each export answers a code of `specs/Codes.antt`, and its contract says the cause of each. A reader
//! may rely on a handle staying as it was, and on nothing else being written, where the answer is a refusal.
ghost use Rattle.std.specs.Prelude.{◌≡◌, ◌<◌, ◌*◌, ◌==◌, ℕ, Some, None, length, min};
ghost use Rattle.word_rows.specs.declared.backoff.TheConstants.{LONGEST_WAIT};
ghost use Rattle.c_handles.specs.Asked.{wait_of};
ghost use Rattle.range_c.specs.declared.recording.WordStep.TheVariants.{Load, Store, Add, Exchange};
ghost use Rattle.range_c.specs.Behind.{IsTried, IsReleased};
ghost use Rattle.range_c.specs.Codes.{Says, shown_of};
ghost use Rattle.range_c.specs.Calls.{OnHandle, OnLook, OnScan, OnTries, OnWord, IsFresh, IsFreshCut, IsOpenRefusal, IsCutRefusal};
ghost use Rattle.range_c.specs.Calls.{HandleShared, IsShareRefusal, IsEnd};

use crate::answers::{Answer, GzBusy};
use crate::calls::{WordCall, look_by, release_by, scan_by, share_by, step_by, try_by};
use crate::handle::GzRange;
use crate::opening::{end, open_regions, open_table};
use crate::recording::WordStep;
use crate::state::{Asked, State};
use c_handles::pause;
use core::mem::{forget, replace};
use std::alloc::Global;

/// Puts an open handle over a box in the place of a closed one.
fn open_over(handle: &mut GzRange, b: Box<State, Global>)
    requires closed { handle.old.pointer.behind ≡ None }
    ensures open { handle.new.pointer.behind ≡ Some b.value }
{
    let closed = replace(handle, GzRange::over(b));
    closed.forget();
}

/// Opens a table of so many seats, from 1 to 16, over copies of these client words, at most 2^20, behind a handle that
/// is closed. Its seat has the highest number.
#[unsafe(no_mangle)]
pub extern "C" fn gz_range_open(
    alloc: Global,
    seats: u32,
    words: &[u64],
    handle: &mut GzRange,
) -> u32
    ensures opened { result ≡ 0 → (handle.old.pointer.behind ≡ None) × IsFresh seats words.now handle.new.pointer.behind }
    ensures refused { 0 < result → handle.new.pointer.behind ≡ handle.old.pointer.behind }
    ensures cause { 0 < result → Says (IsOpenRefusal seats (length words.now) handle.old.pointer.behind) result }
{
    if handle.is_open() {
        return Answer::Open.code();
    }
    match open_table(alloc, seats, words) {
        Ok(b) => {
            open_over(handle, b);
            0
        }
        Err(why) => why.code(),
    }
}

/// The same over a cut of the numbers into so many regions, from 1 to 16, in blocks of 2^bits numbers, with `bits` at
/// most 62: each region has a list of its own, and where there are several, so have ranges in more than one.
#[unsafe(no_mangle)]
pub extern "C" fn gz_range_open_cut(
    alloc: Global,
    seats: u32,
    regions: u32,
    bits: u32,
    words: &[u64],
    handle: &mut GzRange,
) -> u32
    ensures opened { result ≡ 0 → (handle.old.pointer.behind ≡ None) × IsFreshCut regions bits seats words.now handle.new.pointer.behind }
    ensures refused { 0 < result → handle.new.pointer.behind ≡ handle.old.pointer.behind }
    ensures cause { 0 < result → Says (IsCutRefusal regions bits seats (length words.now) handle.old.pointer.behind) result }
{
    if handle.is_open() {
        return Answer::Open.code();
    }
    match open_regions(alloc, seats, regions, bits, words) {
        Ok(b) => {
            open_over(handle, b);
            0
        }
        Err(why) => why.code(),
    }
}

/// Gives a handle that is closed a seat of its own in the table of an open one: the last of those that this one has
/// left, or where it has none, one that was given back.
#[unsafe(no_mangle)]
pub extern "C" fn gz_range_share(alloc: Global, from: &mut GzRange, handle: &mut GzRange) -> u32
    ensures shared { result ≡ 0 → (handle.old.pointer.behind ≡ None) × HandleShared from.old.pointer.behind from.new.pointer.behind handle.new.pointer.behind }
    ensures refused { 0 < result → (from.new.pointer.behind ≡ from.old.pointer.behind) × (handle.new.pointer.behind ≡ handle.old.pointer.behind) }
    ensures cause { 0 < result → Says (IsShareRefusal from.old.pointer.behind handle.old.pointer.behind) result }
{
    if handle.is_open() {
        return Answer::Open.code();
    }
    match share_by(from, alloc) {
        Ok(b) => {
            open_over(handle, b);
            0
        }
        Err(why) => why.code(),
    }
}

/// Tries at most so many times to hold the numbers from `lo` on and below `hi`, at most 2^62, as long as another seat
/// is in the way. `busy` is what the last try met where the answer says so, and all 0 after each other answer.
#[unsafe(no_mangle)]
pub extern "C" fn gz_range_try(
    handle: &mut GzRange,
    lo: u64,
    hi: u64,
    writer: bool,
    tries: u32,
    busy: &mut GzBusy,
) -> u32
    ensures tried { Says (λ answer. (busy.new ≡ shown_of answer)
        × OnHandle (IsTried lo hi writer tries) answer handle.old.pointer.behind handle.new.pointer.behind) result }
{
    let asked = Asked {
        lo,
        hi,
        writer,
        tries,
    };
    let (answer, _) = try_by(handle, asked);
    *busy = answer.shown();
    answer.code()
}

/// The same, and tells in `made` how many tries it made, with 0 after an answer that comes before the first one.
#[unsafe(no_mangle)]
pub extern "C" fn gz_range_try_counted(
    handle: &mut GzRange,
    lo: u64,
    hi: u64,
    writer: bool,
    tries: u32,
    busy: &mut GzBusy,
    made: &mut u32,
) -> u32
    ensures tried { Says (λ answer. (busy.new ≡ shown_of answer)
        × OnTries lo hi writer tries made.new answer handle.old.pointer.behind handle.new.pointer.behind) result }
{
    let asked = Asked {
        lo,
        hi,
        writer,
        tries,
    };
    let (answer, count) = try_by(handle, asked);
    *busy = answer.shown();
    *made = count;
    answer.code()
}

/// Gives the held range back.
#[unsafe(no_mangle)]
pub extern "C" fn gz_range_release(handle: &mut GzRange) -> u32
    ensures released { Says (λ answer. OnHandle IsReleased answer handle.old.pointer.behind handle.new.pointer.behind) result }
{
    release_by(handle).code()
}

/// Tells what the handle holds, and the number of its seat. Nothing changes.
#[unsafe(no_mangle)]
pub extern "C" fn gz_range_held(handle: &mut GzRange, held: &mut GzBusy) -> u32
    ensures looked { Says (λ answer. OnLook held.new answer handle.old.pointer.behind handle.new.pointer.behind) result }
{
    let (answer, shown) = look_by(handle);
    *held = shown;
    answer.code()
}

/// Scans the lists of the handle's table, and writes the ranges that it went past, held or asked for, from the first
/// place of `ranges` on; `found` is how many. The handle is open and holds nothing, and `next` is a closed one, which
/// stands in its place meanwhile.
#[unsafe(no_mangle)]
pub extern "C" fn gz_range_scan_into(
    handle: &mut GzRange,
    next: GzRange,
    ranges: &mut [GzBusy],
    found: &mut usize,
) -> u32
    ensures scanned { Says (λ answer. OnScan next.pointer.behind ranges.old ranges.new found.new answer
        handle.old.pointer.behind handle.new.pointer.behind) result }
{
    let (answer, count) = scan_by(handle, next, ranges);
    *found = count;
    answer.code()
}

/// Loads client word `i`, counted from 0, into `value`.
#[unsafe(no_mangle)]
pub extern "C" fn gz_range_load(handle: &mut GzRange, i: u32, value: &mut u64) -> u32
    ensures loaded { Says (λ answer. OnWord i Load value.old value.new answer handle.old.pointer.behind handle.new.pointer.behind) result }
{
    let call = WordCall {
        i,
        step: WordStep::Load,
        told: *value,
    };
    let (answer, found) = step_by(handle, call);
    *value = found;
    answer.code()
}

/// Stores a value in client word `i`, counted from 0.
#[unsafe(no_mangle)]
pub extern "C" fn gz_range_store(handle: &mut GzRange, i: u32, value: u64) -> u32
    ensures stored { Says (λ answer. (found : ℕ) × OnWord i (Store value) 0 found answer handle.old.pointer.behind handle.new.pointer.behind) result }
{
    let call = WordCall {
        i,
        step: WordStep::Store(value),
        told: 0,
    };
    let (answer, _) = step_by(handle, call);
    answer.code()
}

/// Adds `by` to client word `i`, counted from 0, modulo 2^64; `before` is its value before.
#[unsafe(no_mangle)]
pub extern "C" fn gz_range_add(handle: &mut GzRange, i: u32, by: u64, before: &mut u64) -> u32
    ensures added { Says (λ answer. OnWord i (Add by) before.old before.new answer handle.old.pointer.behind handle.new.pointer.behind) result }
{
    let call = WordCall {
        i,
        step: WordStep::Add(by),
        told: *before,
    };
    let (answer, found) = step_by(handle, call);
    *before = found;
    answer.code()
}

/// Puts `new` into client word `i`, counted from 0, where it is `expected`, in one step. Where it has another value,
/// the word stays, and `expected` becomes that value.
#[unsafe(no_mangle)]
pub extern "C" fn gz_range_exchange(
    handle: &mut GzRange,
    i: u32,
    expected: &mut u64,
    new: u64,
) -> u32
    ensures exchanged { Says (λ answer.
        OnWord i (Exchange expected.old new) expected.old expected.new answer handle.old.pointer.behind handle.new.pointer.behind) result }
{
    let call = WordCall {
        i,
        step: WordStep::Exchange {
            expected: *expected,
            new,
        },
        told: *expected,
    };
    let (answer, found) = step_by(handle, call);
    *expected = found;
    answer.code()
}

/// Waits between two tries of a caller that waits by itself, as `acquire` of `range_rw` waits, but without yielding the
/// processor: as many turns as `turns` says, or as near to that as the shortest and the longest wait allow. `turns` is
/// 0 at first, and becomes the number of the next wait. Says whether this one was one of the longest, behind which the
/// processor is to be yielded.
#[unsafe(no_mangle)]
pub extern "C" fn gz_range_pause(turns: &mut u32) -> bool
    ensures longer { turns.new ≡ min (2 * wait_of turns.old) LONGEST_WAIT }
    ensures longest { result ≡ (wait_of turns.old == LONGEST_WAIT) }
{
    pause(turns)
}

/// Puts a closed handle in the place of a handle, and ends what that was: gives back what it held, then its seat and
/// those that it had left to share, which other handles of the table may share again; and lets its share of the table
/// go. The last handle of a table frees it. A closed handle has nothing to end. Where the handle that is to be put
/// there is open, nothing is done.
#[unsafe(no_mangle)]
pub extern "C" fn gz_range_end(handle: &mut GzRange, next: GzRange) -> u32
    ensures ended { Says (IsEnd next.pointer.behind handle.old.pointer.behind handle.new.pointer.behind) result }
{
    if next.is_open() {
        forget(next.into_box());
        return Answer::Open.code();
    }
    let was = replace(handle, next);
    if !was.is_open() {
        was.forget();
        return Answer::Closed.code();
    }
    end(was.into_box());
    Answer::Done.code()
}
