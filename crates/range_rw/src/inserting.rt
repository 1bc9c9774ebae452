//! How a filled node is inserted into a list that isn't empty: inside its epoch the hand walks to the node's place,
//! links the node there and validates it. Where one of the three refuses, a node that isn't linked becomes ready again,
//! and one that is linked is marked. A reader may rely on the answer's cause being in the record at a step of the call,
//! but where the call is patient. Kogan, Dice and Issa 2020.
ghost use Rattle.std.specs.Prelude.{◌≡◌, ◌+◌, ◌*◌, ◌≤◌, ◌↔◌, true, false, None, MatchOption};
ghost use Rattle.std.specs.Bool.{OnTrue};
ghost use Rattle.marked_list.specs.Causes.{IsSpent};
ghost use Rattle.marked_list.specs.Answers.{IsLong};
ghost use Rattle.range_rw.specs.Calls.{IsHandOf, Leaves};
ghost use Rattle.range_rw.specs.Trying.{has_come, LinkEnds, ValidateEnds, InsertEnds, FoundEmpty, StaysFilled, LeavesNode};
ghost use Rattle.range_rw.specs.Trying.{EpochEnds, BeginsToValidate, IsLaterInTraversal, IsLaterOutside, MayInsert, MayWalkIn};

use crate::patience::validate_or_look;
use epoch_pools::{Hand, List};
use lock_core::Guard;
use marked_list::{Cursor, Linked, Walked, begin, end, link, mark, walk};
use std::sync::ledger::Ledger;
use word_rows::Steps;

/// Whether a walk came to its end.
fn is_place(walked: &Walked) -> bool
    ensures { result ≡ has_come walked.now }
{
    match walked {
        Walked::Place => true,
        Walked::Conflict { .. } | Walked::Lost(_) | Walked::Long { .. } => false,
    }
}

/// Whether a walk that came to its place found no node in the list: its cursor is at the head, which names none.
fn found_empty<G: Guard>(hand: &Hand<G>) -> bool
    ensures { OnTrue result (FoundEmpty hand.now.part.core.cursor) }
{
    match &hand.view().cursor {
        Some(cursor) => cursor.prev.is_none() && cursor.cur == 0,
        None => false,
    }
}

/// Walks to the place of the hand's filled node and links it there. `Place` says that it is linked. None comes only
/// where `leaves` asks for it: the walk found the list empty, and the node is still being filled.
fn walk_and_link<G: Guard, L: Ledger>(
    list: &List<G>,
    hand: &mut Hand<G>,
    cursor: &mut Cursor,
    leaves: bool,
    steps: &mut Steps<L>,
) -> Option<Walked>
    requires order { IsHandOf (MayWalkIn cursor.old) list.now hand.old }
    ensures later { Leaves (IsLaterInTraversal cursor.old cursor.new) hand.old hand.new steps.old steps.new }
    ensures ends { MatchOption result (StaysFilled leaves hand.old.part hand.new.part) (LinkEnds hand.old.part hand.new.part) }
    ensures long { MatchOption result (Unit {0}) (λ walked. IsLong walked ↔ IsSpent hand.new.part) }
    ensures bound { hand.new.part.trace.taken ≤ hand.old.part.trace.taken + 4 + 3 * (16 * hand.old.part.seats + 1) }
{
    let walked = walk(list, hand, cursor, steps);
    if !is_place(&walked) {
        return Some(walked);
    }
    if leaves && found_empty(hand) {
        return None;
    }
    match link(list, hand, cursor, steps) {
        Linked::Done => Some(Walked::Place),
        Linked::Lost(lost) => Some(Walked::Lost(lost)),
    }
}

/// Validates the hand's linked node, with further looks where the call is patient. `Place` says that its range is held;
/// otherwise the node is marked.
fn validate_and_mark<G: Guard, L: Ledger>(
    list: &List<G>,
    hand: &mut Hand<G>,
    cursor: &mut Cursor,
    patient: bool,
    steps: &mut Steps<L>,
) -> Walked
    requires order { IsHandOf (BeginsToValidate cursor.old) list.now hand.old }
    ensures later { Leaves (IsLaterInTraversal cursor.old cursor.new) hand.old hand.new steps.old steps.new }
    ensures ends { ValidateEnds patient hand.old.part hand.new.part result }
    ensures long { IsLong result ↔ IsSpent hand.new.part }
    ensures bound { patient ≡ false → hand.new.part.trace.taken ≤ hand.old.part.trace.taken + 3 + 3 * (16 * hand.old.part.seats + 1) }
{
    let walked = validate_or_look(list, hand, cursor, patient, steps);
    if is_place(&walked) {
        return walked;
    }
    mark(list, hand, steps);
    walked
}

/// Walks to the place of the hand's filled node, links it there and validates it. `Place` says that its range is held;
/// otherwise the node is still being filled, or it was linked and is marked. None comes as `walk_and_link` says.
fn insert_and_validate<G: Guard, L: Ledger>(
    list: &List<G>,
    hand: &mut Hand<G>,
    cursor: &mut Cursor,
    leaves: bool,
    patient: bool,
    steps: &mut Steps<L>,
) -> Option<Walked>
    requires order { IsHandOf (MayWalkIn cursor.old) list.now hand.old }
    ensures later { Leaves (IsLaterInTraversal cursor.old cursor.new) hand.old hand.new steps.old steps.new }
    ensures ends { MatchOption result (StaysFilled leaves hand.old.part hand.new.part) (InsertEnds patient hand.old.part hand.new.part) }
    ensures long { MatchOption result (Unit {0}) (λ walked. IsLong walked ↔ IsSpent hand.new.part) }
    ensures bound { patient ≡ false → hand.new.part.trace.taken ≤ hand.old.part.trace.taken + 7 + 6 * (16 * hand.old.part.seats + 1) }
{
    let Some(walked) = walk_and_link(list, hand, cursor, leaves, steps) else {
        return None;
    };
    if !is_place(&walked) {
        return Some(walked);
    }
    Some(validate_and_mark(list, hand, cursor, patient, steps))
}

/// Enters an epoch, inserts the hand's filled node at its place, validates it, and leaves the epoch. `Place` says that
/// its range is held; otherwise the hand has no node of its own, as before the try. None comes only where `leaves` asks
/// for it: the walk found the list empty, and the node is the first ready one again, so that it may be linked at once.
/// Where the call is patient a reader in conflict looks again.
#[inline(never)]
pub(crate) fn insert_in_epoch<G: Guard, L: Ledger>(
    list: &List<G>,
    hand: &mut Hand<G>,
    leaves: bool,
    patient: bool,
    steps: &mut Steps<L>,
) -> Option<Walked>
    requires own { IsHandOf MayInsert list.now hand.old }
    ensures left { Leaves IsLaterOutside hand.old hand.new steps.old steps.new }
    ensures asked { hand.new.part.trace.asked ≡ hand.old.part.trace.asked }
    ensures ends { MatchOption result (LeavesNode hand.old.part hand.new.part × (leaves ≡ true))
        (EpochEnds patient hand.old.part hand.new.part) }
    ensures long { MatchOption result (Unit {0}) (λ walked. IsLong walked ↔ IsSpent hand.new.part) }
    ensures bound { patient ≡ false → hand.new.part.trace.taken ≤ hand.old.part.trace.taken + 9 + 6 * (16 * hand.old.part.seats + 1) }
{
    let mut cursor = begin(list, hand, steps);
    let walked = insert_and_validate(list, hand, &mut cursor, leaves, patient, steps);
    end(list, hand, cursor, steps);
    walked
}
