//! A traversal of the list: it is begun by entering the hand's epoch and ended by leaving it. Where it stands in the
//! list the hand's view says, so a cursor is a token alone; it can't be dropped, so no caller forgets to leave. A
//! reader may rely on it that no node which a traversal may reach is used again before it is ended.
ghost use Rattle.std.specs.Prelude.{◌≡◌, ◌+◌};
ghost use Rattle.lock_core.specs.declared.steps.Step.TheVariants.{Enter, Leave};
ghost use Rattle.lock_core.specs.Views.{entered, left};
ghost use Rattle.epoch_pools.specs.Hands.{quiet_after};
ghost use Rattle.marked_list.specs.Order.{IsOutside, IsInside, MayEnd};

use epoch_pools::{Hand, List, enter, leave};
use lock_core::Guard;
use std::sync::ledger::Ledger;
use word_rows::Steps;

/// A traversal of the list inside an epoch. It is spent by `end`.
#[derive(Debug)]
pub struct Cursor {
    /// The epoch in which it was begun, an odd number.
    pub epoch: u64,
}

/// Begins a traversal: the hand enters its epoch and stands at the head. The hand is outside, and has no unlinked node
/// still to be given home. It makes no exchange.
pub fn begin<G: Guard, L: Ledger>(
    list: &List<G>,
    hand: &mut Hand<G>,
    steps: &mut Steps<L>,
) -> Cursor
    requires table { hand.old.table ≡ list.now.table }
    requires outside { IsOutside hand.old.part.core }
    ensures table { hand.new.table ≡ hand.old.table }
    ensures made { hand.new.part ≡ quiet_after hand.old.part Enter (entered hand.old.part.core) }
    ensures inside { IsInside hand.new.part.core }
    ensures epoch { result.epoch ≡ hand.new.part.core.epoch }
    ensures seats { hand.old.part.seats ≡ list.now.seats }
    ensures counted { steps.new ≡ steps.old + 1 }
{
    enter(list, hand, steps);
    Cursor {
        epoch: hand.view().epoch,
    }
}

/// Ends a traversal: the hand leaves its epoch. An own node that isn't linked becomes the first of the ready pool; one
/// that is linked must be held.
pub fn end<G: Guard, L: Ledger>(
    list: &List<G>,
    hand: &mut Hand<G>,
    cursor: Cursor,
    steps: &mut Steps<L>,
)
    requires table { hand.old.table ≡ list.now.table }
    requires order { MayEnd hand.old.part.core }
    requires cursor { cursor.epoch ≡ hand.old.part.core.epoch }
    ensures table { hand.new.table ≡ hand.old.table }
    ensures made { hand.new.part ≡ quiet_after hand.old.part Leave (left hand.old.part.core) }
    ensures outside { IsOutside hand.new.part.core }
    ensures counted { steps.new ≡ steps.old + 1 }
{
    let Cursor { epoch: _ } = cursor;
    leave(list, hand, steps);
}
