//! A sweep of the list: a whole walk without an own node, which unlinks every marked node that it meets and gives it
//! home. So the owners of these nodes may use them again, once no seat can reach them. A reader may rely on a sweep
//! never being in conflict. Harris 2001 and Kogan, Dice and Issa 2020 unlink marked nodes so; the homes are this
//! project's own.
ghost use Rattle.std.specs.Prelude.{◌≡◌, ◌+◌, ◌*◌, ◌≤◌, ◌↔◌};
ghost use Rattle.marked_list.specs.Order.{MaySweep};
ghost use Rattle.marked_list.specs.Leaves.{IsSwept, IsNewWalk};
ghost use Rattle.marked_list.specs.Causes.{IsSpent, IsBoundedWalk};
ghost use Rattle.marked_list.specs.Answers.{Sweeps, IsLong};

use crate::answers::Walked;
use crate::cursor::{begin, end};
use crate::walk_loop::whole_walk;
use epoch_pools::{Hand, List};
use lock_core::Guard;
use std::sync::ledger::Ledger;
use word_rows::Steps;

/// Enters the hand's epoch, walks to the end of the list, unlinks every marked node on the way, and leaves the epoch.
/// The hand is outside, has no unlinked node still to be given home, and no node of its own in use.
/// `Place` says that the end was read. `Lost` and `Long` are those of `walk`; a sweep never answers `Conflict`.
pub fn sweep<G: Guard, L: Ledger>(
    list: &List<G>,
    hand: &mut Hand<G>,
    steps: &mut Steps<L>,
) -> Walked
    requires table { hand.old.table ≡ list.now.table }
    requires order { MaySweep hand.old.part.core }
    ensures table { hand.new.table ≡ hand.old.table }
    ensures swept { IsSwept hand.old.part hand.new.part }
    ensures answer { Sweeps hand.old.part.trace.taken hand.new.part result }
    ensures long { IsLong result ↔ IsSpent hand.new.part }
    ensures bounded { IsBoundedWalk hand.new.part }
    ensures walk { IsNewWalk hand.old.part.trace.taken hand.new.part }
    ensures seats { hand.old.part.seats ≡ list.now.seats }
    ensures bound { hand.new.part.trace.taken ≤ hand.old.part.trace.taken + 4 + 3 * (16 * hand.old.part.seats + 1) }
    ensures counted { steps.new + hand.old.part.trace.taken ≡ steps.old + hand.new.part.trace.taken }
{
    let cursor = begin(list, hand, steps);
    let answer = whole_walk(list, hand, steps);
    let _ = hand.view();
    end(list, hand, cursor, steps);
    answer
}
