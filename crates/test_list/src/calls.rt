//! The calls on the running list by any hand at any time. Whether a call may be made is asked of the hand's own view
//! when the program runs; a reader may rely on a call that may not be made leaving the hand as it was. What the calls
//! answer is flat here, so that a worked row is a table. The calls are those of `marked_list`, after Kogan, Dice and
//! Issa 2020.
ghost use Rattle.std.specs.Prelude.{◌≡◌, ◌<◌};
ghost use Rattle.test_list.specs.Calls.{IsTried};

use crate::asking::{
    has_none, is_held, is_linked, is_outside, may_end, may_fill, may_link, may_quick_link,
    may_sweep, may_validate, may_walk,
};
use epoch_pools::{Hand, List, Taken, inside, quick_give, quick_take, take};
use lock_core::{FreeGuard, Mode, Range};
use marked_list::{
    Cursor, Linked, Lost, Walked, begin, end, fill, link, mark, quick_link, quick_unlink, sweep,
    validate, walk,
};
use std::marker::Brand;
use std::sync::ledger::{Blank, Ledger};
use word_rows::Steps;

/// A call on the list.
#[derive(Clone, Copy, Debug, PartialEq, Eq)]
pub enum Call {
    /// A node is taken.
    Take,
    /// The node is filled with a range, which ends above `lo` and at 2^62 at the latest.
    Fill {
        /// Where the range begins.
        lo: u64,
        /// The first number behind it.
        hi: u64,
        /// How it is wanted.
        mode: Mode,
    },
    /// A traversal is begun.
    Begin,
    /// The node's place is looked for.
    Walk,
    /// The node is linked there.
    Link,
    /// Its range becomes held.
    Validate,
    /// The traversal is ended.
    End,
    /// The node is marked.
    Mark,
    /// All marked nodes are unlinked.
    Sweep,
    /// The node is linked at once.
    QuickLink,
    /// It is unlinked at once.
    QuickUnlink,
    /// A ready node is taken, filled with a range and linked where the list is empty, in one call.
    QuickTake {
        /// Where the range begins.
        lo: u64,
        /// The first number behind it.
        hi: u64,
        /// How it is wanted.
        mode: Mode,
    },
    /// A node that is alone in the list is unlinked and given home, in one call.
    QuickGive,
}

/// What a call answered.
#[derive(Clone, Copy, Debug, PartialEq, Eq)]
pub enum Answer {
    /// The call has no answer, or came to a place, or made its exchange.
    Made,
    /// What the taking of a node answered.
    Taken(Taken),
    /// This node was met.
    Conflict {
        /// The number of its seat.
        owner: u32,
        /// Where its range begins.
        lo: u64,
        /// The first number behind it.
        hi: u64,
        /// How it is wanted.
        mode: Mode,
    },
    /// An exchange found another value.
    Lost(Lost),
    /// The node isn't alone in the list as it was linked at once, so its range is still held.
    NotAlone,
    /// So many nodes were looked at, and that is too many.
    Long {
        /// How many.
        visits: u32,
    },
}

fn answer_of_walk(walked: Walked) -> Answer {
    match walked {
        Walked::Place => Answer::Made,
        Walked::Conflict { owner, range, mode } => Answer::Conflict {
            owner,
            lo: range.lo(),
            hi: range.hi(),
            mode,
        },
        Walked::Lost(lost) => Answer::Lost(lost),
        Walked::Long { visits } => Answer::Long { visits },
    }
}

fn answer_of_link(linked: Linked) -> Answer {
    match linked {
        Linked::Done => Answer::Made,
        Linked::Lost(lost) => Answer::Lost(lost),
    }
}

fn take_now<L: Ledger>(
    list: &List<FreeGuard>,
    hand: &mut Hand<FreeGuard>,
    steps: &mut Steps<L>,
) -> Option<Answer>
    requires table { hand.old.table ≡ list.now.table }
    ensures tried { IsTried hand.old hand.new result }
{
    if inside(hand) || !has_none(hand.view()) {
        return None;
    }
    Some(Answer::Taken(take(list, hand, steps)))
}

fn fill_now<L: Ledger>(
    list: &List<FreeGuard>,
    hand: &mut Hand<FreeGuard>,
    range: Range,
    mode: Mode,
    steps: &mut Steps<L>,
) -> Option<Answer>
    requires table { hand.old.table ≡ list.now.table }
    ensures tried { IsTried hand.old hand.new result }
{
    let Some(node) = may_fill(hand.view()) else {
        return None;
    };
    fill(list, hand, node, range, mode, steps);
    Some(Answer::Made)
}

fn begin_now<L: Ledger>(
    list: &List<FreeGuard>,
    hand: &mut Hand<FreeGuard>,
    steps: &mut Steps<L>,
) -> Option<Answer>
    requires table { hand.old.table ≡ list.now.table }
    ensures tried { IsTried hand.old hand.new result }
{
    if !is_outside(hand.view()) {
        return None;
    }
    let Cursor { epoch: _ } = begin(list, hand, steps);
    Some(Answer::Made)
}

fn walk_now<L: Ledger>(
    list: &List<FreeGuard>,
    hand: &mut Hand<FreeGuard>,
    steps: &mut Steps<L>,
) -> Option<Answer>
    requires table { hand.old.table ≡ list.now.table }
    ensures tried { IsTried hand.old hand.new result }
{
    if !may_walk(hand.view()) {
        return None;
    }
    let mut cursor = Cursor {
        epoch: hand.view().epoch,
    };
    let answer = walk(list, hand, &mut cursor, steps);
    let Cursor { epoch: _ } = cursor;
    Some(answer_of_walk(answer))
}

fn link_now<L: Ledger>(
    list: &List<FreeGuard>,
    hand: &mut Hand<FreeGuard>,
    steps: &mut Steps<L>,
) -> Option<Answer>
    requires table { hand.old.table ≡ list.now.table }
    ensures tried { IsTried hand.old hand.new result }
{
    if !may_link(hand.view()) {
        return None;
    }
    let mut cursor = Cursor {
        epoch: hand.view().epoch,
    };
    let answer = link(list, hand, &mut cursor, steps);
    let Cursor { epoch: _ } = cursor;
    Some(answer_of_link(answer))
}

fn validate_now<L: Ledger>(
    list: &List<FreeGuard>,
    hand: &mut Hand<FreeGuard>,
    steps: &mut Steps<L>,
) -> Option<Answer>
    requires table { hand.old.table ≡ list.now.table }
    ensures tried { IsTried hand.old hand.new result }
{
    if !may_validate(hand.seats(), hand.view()) {
        return None;
    }
    let mut cursor = Cursor {
        epoch: hand.view().epoch,
    };
    let answer = validate(list, hand, &mut cursor, steps);
    let Cursor { epoch: _ } = cursor;
    Some(answer_of_walk(answer))
}

fn end_now<L: Ledger>(
    list: &List<FreeGuard>,
    hand: &mut Hand<FreeGuard>,
    steps: &mut Steps<L>,
) -> Option<Answer>
    requires table { hand.old.table ≡ list.now.table }
    ensures tried { IsTried hand.old hand.new result }
{
    if !may_end(hand.view()) {
        return None;
    }
    let cursor = Cursor {
        epoch: hand.view().epoch,
    };
    end(list, hand, cursor, steps);
    Some(Answer::Made)
}

fn mark_now<L: Ledger>(
    list: &List<FreeGuard>,
    hand: &mut Hand<FreeGuard>,
    steps: &mut Steps<L>,
) -> Option<Answer>
    requires table { hand.old.table ≡ list.now.table }
    ensures tried { IsTried hand.old hand.new result }
{
    if !is_linked(hand.view()) {
        return None;
    }
    mark(list, hand, steps);
    Some(Answer::Made)
}

fn sweep_now<L: Ledger>(
    list: &List<FreeGuard>,
    hand: &mut Hand<FreeGuard>,
    steps: &mut Steps<L>,
) -> Option<Answer>
    requires table { hand.old.table ≡ list.now.table }
    ensures tried { IsTried hand.old hand.new result }
{
    if !may_sweep(hand.view()) {
        return None;
    }
    Some(answer_of_walk(sweep(list, hand, steps)))
}

fn quick_link_now<L: Ledger>(
    list: &List<FreeGuard>,
    hand: &mut Hand<FreeGuard>,
    steps: &mut Steps<L>,
) -> Option<Answer>
    requires table { hand.old.table ≡ list.now.table }
    ensures tried { IsTried hand.old hand.new result }
{
    if !may_quick_link(hand.view()) {
        return None;
    }
    Some(answer_of_link(quick_link(list, hand, steps)))
}

fn quick_unlink_now<L: Ledger>(
    list: &List<FreeGuard>,
    hand: &mut Hand<FreeGuard>,
    steps: &mut Steps<L>,
) -> Option<Answer>
    requires table { hand.old.table ≡ list.now.table }
    ensures tried { IsTried hand.old hand.new result }
{
    if !is_held(hand.view()) || hand.view().hand.is_some() {
        return None;
    }
    Some(answer_of_link(quick_unlink(list, hand, steps)))
}

fn quick_take_now<L: Ledger>(
    list: &List<FreeGuard>,
    hand: &mut Hand<FreeGuard>,
    range: Range,
    mode: Mode,
    steps: &mut Steps<L>,
) -> Option<Answer>
    requires table { hand.old.table ≡ list.now.table }
    ensures tried { IsTried hand.old hand.new result }
{
    if inside(hand) || !has_none(hand.view()) || hand.view().ready.is_empty() {
        return None;
    }
    let found = quick_take(list, hand, range, mode, steps);
    if found == 0 {
        return Some(Answer::Made);
    }
    Some(Answer::Lost(Lost {
        place: 0,
        expected: 0,
        found,
    }))
}

fn quick_give_now<L: Ledger>(
    list: &List<FreeGuard>,
    hand: &mut Hand<FreeGuard>,
    steps: &mut Steps<L>,
) -> Option<Answer>
    requires table { hand.old.table ≡ list.now.table }
    ensures tried { IsTried hand.old hand.new result }
{
    if !is_held(hand.view()) || hand.view().hand.is_some() {
        return None;
    }
    let given = quick_give(list, hand, steps);
    Some(if given {
        Answer::Made
    } else {
        Answer::NotAlone
    })
}

fn call_counting<L: Ledger>(
    list: &List<FreeGuard>,
    hand: &mut Hand<FreeGuard>,
    which: Call,
    blank: Blank,
) -> Option<Answer>
    requires blank { (blank.name ≡ L.name) × (blank.parts ≡ L.parts) × (0 < L.parts) }
    requires table { hand.old.table ≡ list.now.table }
    ensures tried { IsTried hand.old hand.new result }
{
    let mut steps = Steps::<L>::new(blank);
    match which {
        Call::Take => take_now(list, hand, &mut steps),
        Call::Fill { lo, hi, mode } => match Range::of(lo, hi) {
            Ok(range) => fill_now(list, hand, range, mode, &mut steps),
            Err(_) => None,
        },
        Call::Begin => begin_now(list, hand, &mut steps),
        Call::Walk => walk_now(list, hand, &mut steps),
        Call::Link => link_now(list, hand, &mut steps),
        Call::Validate => validate_now(list, hand, &mut steps),
        Call::End => end_now(list, hand, &mut steps),
        Call::Mark => mark_now(list, hand, &mut steps),
        Call::Sweep => sweep_now(list, hand, &mut steps),
        Call::QuickLink => quick_link_now(list, hand, &mut steps),
        Call::QuickUnlink => quick_unlink_now(list, hand, &mut steps),
        Call::QuickTake { lo, hi, mode } => match Range::of(lo, hi) {
            Ok(range) => quick_take_now(list, hand, range, mode, &mut steps),
            Err(_) => None,
        },
        Call::QuickGive => quick_give_now(list, hand, &mut steps),
    }
}

/// Makes one call and says what it answered, or None where the hand may not make it, or there is no such range.
pub fn make_call(list: &List<FreeGuard>, hand: &mut Hand<FreeGuard>, which: Call) -> Option<Answer>
    requires table { hand.old.table ≡ list.now.table }
    ensures tried { IsTried hand.old hand.new result }
{
    call_counting::<Brand>(list, hand, which, Blank::new(1))
}
