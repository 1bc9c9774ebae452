//! Epochs and homes of a hand: entering and leaving an operation on the list, and giving an unlinked node home to its
//! owner. While a hand is inside its epoch, no node that it may reach is used again; a reader may rely on each of these
//! calls being one step, and on the hand's view after it.
ghost use Rattle.std.specs.Prelude.{◌≡◌, ◌+◌, ◌%◌, ◌==◌, Some, None, true, length};
ghost use Rattle.lock_core.specs.declared.steps.Step.TheVariants.{Enter, Leave, GiveHome};
ghost use Rattle.lock_core.specs.Machine.{may_leave};
ghost use Rattle.lock_core.specs.Views.{entered, left, gave_home};
ghost use Rattle.epoch_pools.specs.Hands.{quiet_after};

use crate::hand::Hand;
use crate::list::List;
use lock_core::{Guard, Step};
use std::sync::ledger::Ledger;
use word_rows::Steps;

/// Enters the hand's epoch: an operation on the list begins. The hand is outside, and has no unlinked node still to be
/// given home.
#[inline(always)]
pub fn enter<G: Guard, L: Ledger>(list: &List<G>, hand: &mut Hand<G>, steps: &mut Steps<L>)
    requires table { hand.old.table ≡ list.now.table }
    requires outside { hand.old.part.core.epoch % 2 ≡ 0 }
    requires given { hand.old.part.core.hand ≡ None }
    ensures table { hand.new.table ≡ hand.old.table }
    ensures made { hand.new.part ≡ quiet_after hand.old.part Enter (entered hand.old.part.core) }
    ensures seats { hand.old.part.seats ≡ list.now.seats }
    ensures counted { steps.new ≡ steps.old + 1 }
{
    hand.make(list, Step::Enter, steps);
}

/// Leaves the hand's epoch. The hand is inside, has no unlinked node still to be given home, and its own node isn't
/// between its link and the end of its validation. An own node that isn't linked becomes the first of the ready pool.
#[inline(always)]
pub fn leave<G: Guard, L: Ledger>(list: &List<G>, hand: &mut Hand<G>, steps: &mut Steps<L>)
    requires table { hand.old.table ≡ list.now.table }
    requires inside { hand.old.part.core.epoch % 2 ≡ 1 }
    requires given { hand.old.part.core.hand ≡ None }
    requires settled { may_leave hand.old.part.core.own ≡ true }
    ensures table { hand.new.table ≡ hand.old.table }
    ensures made { hand.new.part ≡ quiet_after hand.old.part Leave (left hand.old.part.core) }
    ensures counted { steps.new ≡ steps.old + 1 }
{
    hand.make(list, Step::Leave, steps);
}

/// Gives a node home that this hand unlinked and hasn't given home yet.
#[inline(always)]
pub fn give_home<G: Guard, L: Ledger>(
    list: &List<G>,
    hand: &mut Hand<G>,
    node: u32,
    steps: &mut Steps<L>,
)
    requires table { hand.old.table ≡ list.now.table }
    requires node { hand.old.part.core.hand ≡ Some node }
    ensures table { hand.new.table ≡ hand.old.table }
    ensures made { hand.new.part ≡ quiet_after hand.old.part GiveHome (gave_home hand.old.part.core) }
    ensures counted { steps.new ≡ steps.old + 1 }
{
    let _ = node;
    hand.make(list, Step::GiveHome, steps);
}

/// Whether the hand is inside its epoch.
pub fn inside<G: Guard>(hand: &Hand<G>) -> bool
    ensures { result ≡ (hand.now.part.core.epoch % 2 == 1) }
{
    hand.view.epoch % 2 == 1
}

/// How many nodes of the hand are ready to be taken.
pub fn ready<G: Guard>(hand: &Hand<G>) -> u32
    ensures { result ≡ length hand.now.part.core.ready }
{
    hand.view.ready.as_slice().len() as u32
}
