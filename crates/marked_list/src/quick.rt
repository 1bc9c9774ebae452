//! The fast path for a list that is empty: a node is linked and held by one exchange of the head, outside the epoch,
//! and unlinked by another, as long as nobody has settled the head meanwhile. A reader may rely on a quick link that
//! answers Done holding its range from that step on. The fast path of Kogan, Dice and Issa 2020.
ghost use Rattle.std.specs.Prelude.{◌≡◌, ◌+◌, Some, None};
ghost use Rattle.epoch_pools.specs.Beside.{given_back, may_give_back};
ghost use Rattle.marked_list.specs.Order.{MayQuickLink, MayQuickUnlink};
ghost use Rattle.marked_list.specs.Leaves.{IsCall};
ghost use Rattle.marked_list.specs.Answers.{QuickLinks, QuickUnlinks};

use crate::answers::{Linked, Lost};
use crate::own::aim;
use epoch_pools::{Hand, List, step};
use lock_core::{Guard, Own, Step, node_word};
use std::sync::ledger::Ledger;
use word_rows::Steps;

/// The place of the head.
const HEAD: u32 = 0;

/// Links the hand's node into the list, if that is empty, by one exchange of the head. The node is filled, and the hand
/// is outside its epoch. `Done` says that the range is held from this step on. `Lost` carries place 0, expected 0 and
/// the value found; the node is as before, but for its aim, and may be linked by a walk.
pub fn quick_link<G: Guard, L: Ledger>(
    list: &List<G>,
    hand: &mut Hand<G>,
    steps: &mut Steps<L>,
) -> Linked
    requires table { hand.old.table ≡ list.now.table }
    requires order { MayQuickLink hand.old.part.core }
    ensures table { hand.new.table ≡ hand.old.table }
    ensures call { IsCall 2 hand.old.part hand.new.part }
    ensures asked { hand.new.part.trace.asked ≡ hand.old.part.trace.asked }
    ensures answer { QuickLinks hand.old.part hand.new.part result }
    ensures counted { steps.new ≡ steps.old + 2 }
{
    let _ = hand.view();
    aim(list, hand, steps);
    let found = step(list, hand, Step::QuickLink, steps);
    if found != 0 {
        return Linked::Lost(Lost {
            place: HEAD,
            expected: 0,
            found,
        });
    }
    Linked::Done
}

/// Gives the held range back by one exchange of the head, where the hand's node is still alone in the list as
/// `quick_link` put it there. The pass is at rest where the range counts, and no unlinked node is still to be given
/// home. After `Done` the pass is `rested` of what it was, where the range counted, and the hand owes `give_home` for
/// that node. After `Lost` the range is still held, and `mark` is the way on.
pub fn quick_unlink<G: Guard, L: Ledger>(
    list: &List<G>,
    hand: &mut Hand<G>,
    steps: &mut Steps<L>,
) -> Linked
    requires table { hand.old.table ≡ list.now.table }
    requires order { MayQuickUnlink (may_give_back G.is_at_rest) hand.old.part }
    ensures table { hand.new.table ≡ hand.old.table }
    ensures answer { QuickUnlinks (given_back G.rested) hand.old.part hand.new.part result }
    ensures counted { steps.new ≡ steps.old + 1 }
{
    let Own::Linked { node, .. } = hand.view().own else {
        unreachable!()
    };
    let expected = node_word(node, true);
    let found = step(list, hand, Step::QuickUnlink, steps);
    if found != expected {
        return Linked::Lost(Lost {
            place: HEAD,
            expected,
            found,
        });
    }
    Linked::Done
}
