//! Ranges by calls, again and again: the next call is read from the hand's view. Threads at one list hold ranges that
//! overlap or don't, and count in client word 0 how many of them hold one. A reader may rely on a try that says so
//! holding a range, and on each hand being idle after the threads have run, in its place.
ghost use Rattle.std.specs.Prelude.{◌≡◌, ◌≢◌, ◌<◌, ◌≤◌, length, IfSome};
ghost use Rattle.epoch_pools.specs.Hands.{IsIdle, AreIdleHands};
ghost use Rattle.test_list.specs.Trials.{IsSameHand, IsHolding, AreInOrder};
ghost use Rattle.test_list.specs.declared.kept.Kept.TheVariants.{Held};
ghost use Rattle.test_list.specs.Calls.{IsKept};

use crate::asking::is_holding;
use crate::calls::{Answer, Call, make_call};
use crate::is_idle;
use crate::kept::Kept;
use epoch_pools::{Hand, List, Taken, client_add};
use lock_core::{FreeGuard, Mode, Own, Todo, View};
use std::sync::Wait;
use std::sync::atomic::{AtomicU64, Ordering};
use std::thread;
use std::thread::Threads;
use word_rows::Backoff;

/// How many calls one try makes at most.
const MOST_CALLS: u32 = 256;

/// The call that brings the hand nearer to holding a range from `lo` on and below `hi` as a writer.
fn next_call(view: &View, lo: u64, hi: u64) -> Call {
    let inside = view.epoch % 2 == 1;
    match view.own {
        Own::Nothing => { if inside { Call::End } else { Call::Take } }
        Own::Filling { hi: None, .. } => Call::Fill {
            lo,
            hi,
            mode: Mode::Writer,
        },
        Own::Filling { .. } => {
            if !inside {
                Call::Begin
            } else if view.cursor.is_none() {
                Call::Walk
            } else {
                Call::Link
            }
        }
        Own::Linked {
            todo: Todo::Done,
            ..
        } => Call::End,
        Own::Linked { .. } => Call::Validate,
    }
}

/// What a try comes to by that answer, where it doesn't go on.
fn ends_with(answer: Answer) -> Option<Kept>
    ensures { IfSome result (λ kept. kept ≢ Held) }
{
    match answer {
        Answer::Made => None,
        Answer::Taken(Taken::Node(_)) => None,
        Answer::Taken(Taken::Out(_)) => Some(Kept::Stuck),
        Answer::Conflict { .. } => Some(Kept::Met),
        Answer::Lost(_) => None,
        Answer::NotAlone => None,
        Answer::Long { .. } => Some(Kept::Stuck),
    }
}

/// A try for a range as a writer.
pub fn keep(list: &List<FreeGuard>, hand: &mut Hand<FreeGuard>, lo: u64, hi: u64) -> Kept
    requires table { hand.old.table ≡ list.now.table }
    ensures same { IsSameHand hand.old hand.new }
    ensures held { IsKept result hand.new.part.core }
{
    'calls: for _ in 0..MOST_CALLS {
        if is_holding(hand.view()) {
            return Kept::Held;
        }
        let Some(answer) = make_call(list, hand, next_call(hand.view(), lo, hi)) else {
            return Kept::Stuck;
        };
        if let Some(kept) = ends_with(answer) {
            return kept;
        }
    }
    Kept::Stuck
}

/// Gives the range back, or gives up on the way: a linked node is marked, and one that isn't linked goes back to the
/// ready ones.
pub fn let_go(list: &List<FreeGuard>, hand: &mut Hand<FreeGuard>)
    requires table { hand.old.table ≡ list.now.table }
    ensures same { IsSameHand hand.old hand.new }
{
    make_call(list, hand, Call::Mark);
    make_call(list, hand, Call::End);
}

/// What threads that hold ranges beside each other have seen.
#[derive(Debug, Drop)]
pub struct Seen {
    /// The most other owners that one found in the client word while it held its range.
    pub most: AtomicU64,
    /// How many tries met a node in conflict.
    pub met: AtomicU64,
}

/// One turn: while the range is held, the hand is counted in client word 0. It says whether the range was held.
fn count_turn(
    list: &List<FreeGuard>,
    hand: &mut Hand<FreeGuard>,
    lo: u64,
    hi: u64,
    seen: &Seen,
) -> bool
    requires table { hand.old.table ≡ list.now.table }
    requires word { 0 < list.now.client }
    ensures same { IsSameHand hand.old hand.new }
{
    let kept = keep(list, hand, lo, hi);
    match kept {
        Kept::Held => {
            let others = client_add::<FreeGuard, FreeGuard>(list, hand, 0, 1);
            seen.most.fetch_max(others, Ordering::SeqCst);
            client_add::<FreeGuard, FreeGuard>(list, hand, 0, u64::MAX);
        }
        Kept::Met => {
            seen.met.fetch_add(1, Ordering::SeqCst);
        }
        Kept::Stuck => {}
    }
    let_go(list, hand);
    if kept == Kept::Stuck {
        make_call(list, hand, Call::Sweep);
    }
    kept == Kept::Held
}

/// So many turns of one hand, each under a range of ten numbers. The ranges of two hands begin `apart` from one
/// another, so that they overlap where that is 0.
pub fn count_turns<R: Wait>(
    wait: &R,
    list: &List<FreeGuard>,
    hand: &mut Hand<FreeGuard>,
    turns: u32,
    apart: u32,
    seen: &Seen,
)
    requires table { hand.old.table ≡ list.now.table }
    requires word { 0 < list.now.client }
    ensures same { IsSameHand hand.old hand.new }
    ensures idle { IsIdle hand.new.part.core }
{
    let first = u64::from(hand.number()) * u64::from(apart);
    let mut made = 0;
    let mut backoff = Backoff::new();
    'turns: for _ in wait.forever() {
        if made >= turns && is_idle(hand) {
            break;
        }
        let lo = first + u64::from(made % 7);
        if count_turn(list, hand, lo, lo + 10, seen) {
            made = made.saturating_add(1);
            backoff = Backoff::new();
        } else {
            backoff.wait();
        }
    }
}

/// Each hand has so many turns, each on a thread of its own.
pub fn count_all<R: Threads + Wait + Sync>(
    rt: &R,
    list: &List<FreeGuard>,
    hands: &mut [Hand<FreeGuard>],
    turns: u32,
    apart: u32,
    seen: &Seen,
)
    requires order { AreInOrder list.now.table hands.old }
    requires word { 0 < list.now.client }
    ensures order { AreInOrder list.now.table hands.new }
    ensures idle { AreIdleHands list.now.table hands.new }
{
    let turn = |_: usize, hand: &mut Hand<FreeGuard>|
        requires { (hand.now.table ≡ list.now.table) × (0 < list.now.client) }
        ensures { IsSameHand hand.entry.now hand.exit.now × IsIdle hand.exit.now.part.core }
    { count_turns(rt, list, hand, turns, apart, seen) };
    thread::for_each_mut(rt, hands, 16, &turn);
}

/// Holds a range with the hand of that number, as `keep`, and says whether it does.
fn keep_by(
    list: &List<FreeGuard>,
    hands: &mut [Hand<FreeGuard>],
    number: usize,
    lo: u64,
    hi: u64,
) -> bool
    requires there { number < length hands.old }
    requires order { AreInOrder list.now.table hands.old }
    ensures order { AreInOrder list.now.table hands.new }
{
    keep(list, &mut hands[number], lo, hi) == Kept::Held
}

/// Gives the range of the hand of that number back, as `let_go`.
fn let_go_by(list: &List<FreeGuard>, hands: &mut [Hand<FreeGuard>], number: usize)
    requires there { number < length hands.old }
    requires order { AreInOrder list.now.table hands.old }
    ensures order { AreInOrder list.now.table hands.new }
{
    let_go(list, &mut hands[number])
}

/// Marks all nodes of the first two hands in the list: they hold ranges in turn, each before the last one, and each
/// marks its node when the other stands before it, so that no walk meets a marked node. It says whether all of these
/// ranges were held.
pub fn mark_in_turn(list: &List<FreeGuard>, hands: &mut [Hand<FreeGuard>]) -> bool
    requires two { 1 < length hands.old }
    requires order { AreInOrder list.now.table hands.old }
    ensures order { AreInOrder list.now.table hands.new }
{
    let mut left = 32;
    'nodes: while left > 0 {
        left -= 1;
        let lo = 10 * left as u64;
        if !keep_by(list, hands, left % 2, lo, lo + 1) {
            return false;
        }
        let_go_by(list, hands, 1 - left % 2);
    }
    let_go_by(list, hands, 0);
    true
}

/// Each hand but the first holds a range, and all sixteen nodes of the first are marked in the list between these. It
/// says whether it is so.
pub fn leave_all_away(list: &List<FreeGuard>, hands: &mut [Hand<FreeGuard>]) -> bool
    requires some { 0 < length hands.old }
    requires few { length hands.old ≤ 16 }
    requires order { AreInOrder list.now.table hands.old }
    ensures order { AreInOrder list.now.table hands.new }
{
    line_up(list, hands) && mark_between(list, hands)
}

/// Each hand but the first holds, as a writer, the one number that is ten times its own, the last hand first. It says
/// whether all of them do.
fn line_up(list: &List<FreeGuard>, hands: &mut [Hand<FreeGuard>]) -> bool
    requires few { length hands.old ≤ 16 }
    requires order { AreInOrder list.now.table hands.old }
    ensures order { AreInOrder list.now.table hands.new }
{
    let mut number = hands.len();
    'hands: while number > 1 {
        number -= 1;
        let lo = 10 * number as u64;
        if !keep_by(list, hands, number, lo, lo + 1) {
            return false;
        }
    }
    true
}

/// The first hand holds and marks sixteen nodes, one before each of such a row and one behind it, the highest range
/// first, so that none of them is met again. It says whether it did.
fn mark_between(list: &List<FreeGuard>, hands: &mut [Hand<FreeGuard>]) -> bool
    requires some { 0 < length hands.old }
    requires order { AreInOrder list.now.table hands.old }
    ensures order { AreInOrder list.now.table hands.new }
{
    let mut place = 16;
    'places: while place > 0 {
        place -= 1;
        let lo = 10 * place + 5;
        if !keep_by(list, hands, 0, lo, lo + 1) {
            return false;
        }
        let_go_by(list, hands, 0);
    }
    true
}

/// So many turns of a hand under the range 0 to 1, each given back by a mark. It says whether all were held.
pub fn keep_turns(list: &List<FreeGuard>, hand: &mut Hand<FreeGuard>, turns: u32) -> bool
    requires table { hand.old.table ≡ list.now.table }
    ensures same { IsSameHand hand.old hand.new }
{
    'turns: for _ in 0..turns {
        if keep(list, hand, 0, 1) != Kept::Held {
            return false;
        }
        let_go(list, hand);
    }
    true
}
