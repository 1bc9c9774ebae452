//! Single steps of a hand. A step is made where the hand's view enables it; a reader may rely on any other step
//! changing nothing.
ghost use Rattle.std.specs.Prelude.{◌≡◌, ◌<◌, ◌≢◌};
ghost use Rattle.std.specs.Bool.{OnTrue};
ghost use Rattle.epoch_pools.specs.Hands.{IsListStep};
ghost use Rattle.test_list.specs.Trials.{IsSameHand};

use epoch_pools::{Hand, List, Taken, enter, give_home, inside, leave, step, take};
use lock_core::{FreeGuard, Own, Step, is_enabled};
use std::marker::Brand;
use std::sync::ledger::{Blank, Ledger};
use word_rows::Steps;

/// Whether the step is one of those on nodes and the list.
fn is_list_step(step: Step) -> bool
    ensures { OnTrue result (IsListStep step) }
{
    match step {
        Step::Enter => false,
        Step::Leave => false,
        Step::ReadEpoch { .. } => false,
        Step::ReadHome { .. } => false,
        Step::GiveHome => false,
        Step::ClearHome { .. } => false,
        Step::FillLo { .. } => true,
        Step::FillHi { .. } => true,
        Step::Aim => true,
        Step::Walk => true,
        Step::ReadLo => true,
        Step::ReadHi => true,
        Step::Link => true,
        Step::Unlink => true,
        Step::Mark => true,
        Step::QuickLink => true,
        Step::QuickUnlink => true,
        Step::Settle => true,
    }
}

/// Takes a node, if the hand is outside and has none of its own.
fn take_free<L: Ledger>(
    list: &List<FreeGuard>,
    hand: &mut Hand<FreeGuard>,
    steps: &mut Steps<L>,
) -> Option<Taken>
    requires table { hand.old.table ≡ list.now.table }
    ensures same { IsSameHand hand.old hand.new }
{
    if inside(hand) {
        return None;
    }
    match hand.view().own {
        Own::Nothing => Some(take(list, hand, steps)),
        _ => None,
    }
}

/// Enters the epoch, if the hand may.
fn enter_epoch<L: Ledger>(
    list: &List<FreeGuard>,
    hand: &mut Hand<FreeGuard>,
    steps: &mut Steps<L>,
) -> Option<u64>
    requires table { hand.old.table ≡ list.now.table }
    ensures same { IsSameHand hand.old hand.new }
{
    if inside(hand) || hand.view().hand.is_some() {
        return None;
    }
    enter(list, hand, steps);
    Some(0)
}

/// Leaves the epoch, if the hand may.
fn leave_epoch<L: Ledger>(
    list: &List<FreeGuard>,
    hand: &mut Hand<FreeGuard>,
    steps: &mut Steps<L>,
) -> Option<u64>
    requires table { hand.old.table ≡ list.now.table }
    ensures same { IsSameHand hand.old hand.new }
{
    if !is_enabled(hand.seats(), hand.number(), hand.view(), Step::Leave) {
        return None;
    }
    leave(list, hand, steps);
    Some(0)
}

/// Gives the node in the hand home, if there is one.
fn put_home<L: Ledger>(
    list: &List<FreeGuard>,
    hand: &mut Hand<FreeGuard>,
    steps: &mut Steps<L>,
) -> Option<u64>
    requires table { hand.old.table ≡ list.now.table }
    ensures same { IsSameHand hand.old hand.new }
{
    let Some(node) = hand.view().hand else {
        return None;
    };
    give_home(list, hand, node, steps);
    Some(0)
}

/// Makes a step on a node or the list, if the hand's view enables it.
fn step_on<L: Ledger>(
    list: &List<FreeGuard>,
    hand: &mut Hand<FreeGuard>,
    kind: Step,
    steps: &mut Steps<L>,
) -> Option<u64>
    requires table { hand.old.table ≡ list.now.table }
    ensures same { IsSameHand hand.old hand.new }
{
    if !is_list_step(kind) || !is_enabled(hand.seats(), hand.number(), hand.view(), kind) {
        return None;
    }
    Some(step(list, hand, kind, steps))
}

fn make_counting<L: Ledger>(
    list: &List<FreeGuard>,
    hand: &mut Hand<FreeGuard>,
    kind: Step,
    blank: Blank,
) -> Option<u64>
    requires blank { (blank.name ≡ L.name) × (blank.parts ≡ L.parts) × (0 < L.parts) }
    requires table { hand.old.table ≡ list.now.table }
    ensures same { IsSameHand hand.old hand.new }
{
    let mut steps = Steps::<L>::new(blank);
    match kind {
        Step::Enter => enter_epoch(list, hand, &mut steps),
        Step::Leave => leave_epoch(list, hand, &mut steps),
        Step::GiveHome => put_home(list, hand, &mut steps),
        Step::ClearHome { node } => {
            if take_free(list, hand, &mut steps) == Some(Taken::Node(node)) {
                Some(0)
            } else {
                None
            }
        }
        _ => step_on(list, hand, kind, &mut steps),
    }
}

/// Makes one step and returns what its word was, or 0 for a store, an Enter and a Leave. A ClearHome is made by `take`,
/// which has to give that node; the steps of the barrier are made by `take` alone. It returns None where the hand's
/// view doesn't enable the step, or `take` gave another answer.
pub fn make(list: &List<FreeGuard>, hand: &mut Hand<FreeGuard>, kind: Step) -> Option<u64>
    requires table { hand.old.table ≡ list.now.table }
    ensures same { IsSameHand hand.old hand.new }
{
    make_counting::<Brand>(list, hand, kind, Blank::new(1))
}
