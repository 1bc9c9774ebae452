//! The walk to the place of a node that is being filled, and the validation of a node that is linked: a reader looks
//! forward from its own node, and a writer from the head up to its own node. A reader may rely on a range being held
//! from the step on at which its validation comes to its end, whatever other seats link meanwhile. Kogan, Dice and
//! Issa 2020.
ghost use Rattle.std.specs.Prelude.{◌≡◌, ◌+◌, ◌*◌, ◌≤◌, ◌↔◌, None};
ghost use Rattle.marked_list.specs.Order.{MayWalk, MayValidate};
ghost use Rattle.marked_list.specs.Leaves.{IsLaterInWalk, IsNewWalk};
ghost use Rattle.marked_list.specs.Causes.{IsSpent, IsBoundedWalk};
ghost use Rattle.marked_list.specs.Answers.{Answers, IsLong};

use crate::answers::Walked;
use crate::cursor::Cursor;
use crate::walk_loop::{walk_on, whole_walk};
use epoch_pools::{Hand, List};
use lock_core::Guard;
use std::sync::ledger::Ledger;
use word_rows::Steps;

/// Walks from the head to the place of the hand's node, which is filled and not linked, by the compare rule; it unlinks
/// marked nodes on its way and gives them home. It is the first walk of this traversal, or an exchange was lost since.
/// `Place` says that the node may be linked where the cursor is. `Conflict` names a node of another seat that was
/// unmarked at a step of this call. `Lost` is an exchange of this call, an unlinking or the settling of the head, and
/// `Long` comes exactly where this walk has looked at 16 nodes for each seat and one more.
pub fn walk<G: Guard, L: Ledger>(
    list: &List<G>,
    hand: &mut Hand<G>,
    cursor: &mut Cursor,
    steps: &mut Steps<L>,
) -> Walked
    requires table { hand.old.table ≡ list.now.table }
    requires order { MayWalk hand.old.part.core }
    requires cursor { cursor.old.epoch ≡ hand.old.part.core.epoch }
    ensures table { hand.new.table ≡ hand.old.table }
    ensures later { IsLaterInWalk hand.old.part hand.new.part }
    ensures answer { Answers hand.old.part.trace.taken hand.old.part.core.own hand.new.part result }
    ensures long { IsLong result ↔ IsSpent hand.new.part }
    ensures bounded { IsBoundedWalk hand.new.part }
    ensures walk { IsNewWalk hand.old.part.trace.taken hand.new.part }
    ensures bound { hand.new.part.trace.taken ≤ hand.old.part.trace.taken + 2 + 3 * (16 * hand.old.part.seats + 1) }
    ensures counted { steps.new + hand.old.part.trace.taken ≡ steps.old + hand.new.part.trace.taken }
    ensures cursor { cursor.new ≡ cursor.old }
{
    let _ = cursor;
    whole_walk(list, hand, steps)
}

/// Validates the hand's linked node: a reader looks forward from its own node, and a writer from the head up to its own
/// node. The node isn't held yet; it is the first validation since the link, or the last one lost an exchange, or it
/// met a conflict and the node is a reader's, which then looks at the same node again.
/// `Place` says that the range is held from the last step on; the other answers are those of `walk`.
pub fn validate<G: Guard, L: Ledger>(
    list: &List<G>,
    hand: &mut Hand<G>,
    cursor: &mut Cursor,
    steps: &mut Steps<L>,
) -> Walked
    requires table { hand.old.table ≡ list.now.table }
    requires order { MayValidate hand.old.part.seats hand.old.part.core }
    requires cursor { cursor.old.epoch ≡ hand.old.part.core.epoch }
    ensures table { hand.new.table ≡ hand.old.table }
    ensures later { IsLaterInWalk hand.old.part hand.new.part }
    ensures answer { Answers hand.old.part.trace.taken hand.old.part.core.own hand.new.part result }
    ensures long { IsLong result ↔ IsSpent hand.new.part }
    ensures bounded { IsBoundedWalk hand.new.part }
    ensures walk { hand.old.part.core.cursor ≡ None → IsNewWalk hand.old.part.trace.taken hand.new.part }
    ensures bound { hand.new.part.trace.taken ≤ hand.old.part.trace.taken + 2 + 3 * (16 * hand.old.part.seats + 1) }
    ensures counted { steps.new + hand.old.part.trace.taken ≡ steps.old + hand.new.part.trace.taken }
    ensures cursor { cursor.new ≡ cursor.old }
{
    let _ = cursor;
    if hand.view().cursor.is_none() {
        whole_walk(list, hand, steps)
    } else {
        walk_on(list, hand, steps)
    }
}
