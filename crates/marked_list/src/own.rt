//! The own node of a hand on its way through the list: it is filled with a range, aimed and linked at the cursor's
//! place, and marked when its range is given back or given up. A node that is marked stays in the list until a walk
//! unlinks it. A reader may rely on a link that answers Done having put the node where the walk stopped. Harris 2001
//! for the mark; Kogan, Dice and Issa 2020 for the list of ranges.
ghost use Rattle.std.specs.Prelude.{◌≡◌, ◌+◌, ◌∷◌, Some, None};
ghost use Rattle.lock_core.specs.declared.views.Own.TheVariants.{Filling};
ghost use Rattle.epoch_pools.specs.Beside.{given_back, may_give_back};
ghost use Rattle.marked_list.specs.Order.{HasEnds, MayFill, MayAim, MayLink, MayMark};
ghost use Rattle.marked_list.specs.Leaves.{IsCall, IsSameLook};
ghost use Rattle.marked_list.specs.Answers.{IsAimed, Links, IsMarkCall};

use crate::answers::Linked;
use crate::cursor::Cursor;
use crate::look::lost_at;
use epoch_pools::{Hand, List, step};
use lock_core::{Guard, Mode, Range, Step};
use std::sync::ledger::Ledger;
use word_rows::Steps;

/// Fills the node that the hand has just taken with a range and a mode, in two steps.
pub fn fill<G: Guard, L: Ledger>(
    list: &List<G>,
    hand: &mut Hand<G>,
    node: u32,
    range: Range,
    mode: Mode,
    steps: &mut Steps<L>,
)
    requires table { hand.old.table ≡ list.now.table }
    requires order { MayFill hand.old.part.core node }
    ensures table { hand.new.table ≡ hand.old.table }
    ensures call { IsCall 2 hand.old.part hand.new.part }
    ensures filled { hand.new.part.core ≡ record hand.old.part.core { own = Filling node (Some range.lo) (Some range.hi) mode None } }
    ensures asked { hand.new.part.trace.asked ≡ record { range = range; mode = mode } ∷ hand.old.part.trace.asked }
    ensures seats { hand.old.part.seats ≡ list.now.seats }
    ensures counted { steps.new ≡ steps.old + 2 }
{
    let _ = node;
    step(list, hand, Step::FillLo { lo: range.lo() }, steps);
    step(
        list,
        hand,
        Step::FillHi {
            hi: range.hi(),
            mode,
        },
        steps,
    );
}

/// Aims the own node at the cursor's word, or at the end where there is no cursor.
pub(crate) fn aim<G: Guard, L: Ledger>(list: &List<G>, hand: &mut Hand<G>, steps: &mut Steps<L>)
    requires table { hand.old.table ≡ list.now.table }
    requires may { MayAim hand.old.part.core }
    ensures table { hand.new.table ≡ hand.old.table }
    ensures aimed { IsAimed hand.old.part hand.new.part }
    ensures counted { steps.new ≡ steps.old + 1 }
{
    let _ = hand.view();
    step(list, hand, Step::Aim, steps);
}

/// Links the hand's node at the cursor's place, to which the last walk came: aims it there and makes one exchange.
/// `Done` says that the node is linked, and has still to be validated. `Lost` is the exchange, which found another
/// value; the way on is another walk. Either way the cursor's place is gone.
pub fn link<G: Guard, L: Ledger>(
    list: &List<G>,
    hand: &mut Hand<G>,
    cursor: &mut Cursor,
    steps: &mut Steps<L>,
) -> Linked
    requires table { hand.old.table ≡ list.now.table }
    requires order { MayLink hand.old.part.core }
    requires cursor { cursor.old.epoch ≡ hand.old.part.core.epoch }
    ensures table { hand.new.table ≡ hand.old.table }
    ensures call { IsCall 2 hand.old.part hand.new.part }
    ensures asked { hand.new.part.trace.asked ≡ hand.old.part.trace.asked }
    ensures answer { Links hand.old.part hand.new.part result }
    ensures look { IsSameLook hand.old.part hand.new.part }
    ensures counted { steps.new ≡ steps.old + 2 }
    ensures cursor { cursor.new ≡ cursor.old }
{
    let _ = cursor;
    aim(list, hand, steps);
    let Some(place) = hand.view().cursor else {
        unreachable!()
    };
    let found = step(list, hand, Step::Link, steps);
    if found != place.cur {
        return Linked::Lost(lost_at(hand.seats(), place, found));
    }
    Linked::Done
}

/// Marks the hand's linked node, by one addition: its range is given back where it is held, and given up otherwise. The
/// pass of a held range that counts is at rest, and becomes `rested`; otherwise the pass stays.
pub fn mark<G: Guard, L: Ledger>(list: &List<G>, hand: &mut Hand<G>, steps: &mut Steps<L>)
    requires table { hand.old.table ≡ list.now.table }
    requires order { MayMark (may_give_back G.is_at_rest) hand.old.part }
    ensures table { hand.new.table ≡ hand.old.table }
    ensures marked { IsMarkCall (given_back G.rested) hand.old.part hand.new.part }
    ensures counted { steps.new ≡ steps.old + 1 }
{
    let _ = hand.view();
    step(list, hand, Step::Mark, steps);
}
