//! How `acquire` validates its linked node: as a try does, but for a reader that meets another seat's writer. It stays
//! inside its epoch and looks at that node again, with growing pauses, until the node is marked or `MOST_LOOKS` looks
//! were made; only then it marks its own node. A writer that meets its node marks at once. A reader that waits here is
//! inside its epoch and keeps the nodes of all seats from being ready again, so the looks aren't more than serves. A
//! reader may rely on a try looking once. Kogan, Dice and Issa 2020, where the reader waits without end.
ghost use Rattle.std.specs.Prelude.{◌≡◌, ◌↔◌, ◌+◌, ◌*◌, ◌≤◌, ◌<◌, true, false};
ghost use Rattle.marked_list.specs.Answers.{IsLong};
ghost use Rattle.marked_list.specs.Causes.{IsSpent};
ghost use Rattle.marked_list.specs.Order.{StandsInConflict};
ghost use Rattle.range_rw.specs.Calls.{IsHandOf, Leaves};
ghost use Rattle.range_rw.specs.Trying.{BeginsToValidate, IsLaterInTraversal, LookEnds, MayValidateIn};
ghost use Rattle.range_rw.specs.Patience.{has_met, reads_on, looks_of, most_steps};
ghost use Rattle.word_rows.specs.declared.backoff.TheConstants.{MOST_LOOKS};

use crate::refusals::NotHeld;
use epoch_pools::{Hand, List};
use lock_core::{Guard, Own, Todo};
use marked_list::{Cursor, Walked, validate};
use std::sync::ledger::Ledger;
use word_rows::{Backoff, MOST_LOOKS, Steps};

/// When a caller of `acquire_round` begins the next round, where its range isn't held.
#[derive(Clone, Copy, Debug, PartialEq, Eq)]
pub enum Anew {
    /// At once: an exchange was lost.
    AtOnce,
    /// After a pause: another seat has to move first.
    Later,
}

/// Whether a validation met a node in conflict.
fn is_conflict(walked: &Walked) -> bool
    ensures { result ≡ has_met walked.now }
{
    match walked {
        Walked::Conflict { .. } => true,
        Walked::Place | Walked::Lost(_) | Walked::Long { .. } => false,
    }
}

/// Whether the hand's node is a reader's that has still to be validated.
fn is_reader<G: Guard>(hand: &Hand<G>) -> bool
    ensures { result ≡ reads_on hand.now.part.core.own }
{
    match hand.view().own {
        Own::Linked {
            todo: Todo::Forward,
            ..
        } => true,
        _ => false,
    }
}

/// Looks again at the node that a reader's validation met in conflict, after a pause each time, until that node is
/// marked, and goes on with the validation then. `met` is what the validation answered. A conflict comes only after
/// `MOST_LOOKS` looks.
fn look_again<G: Guard, L: Ledger>(
    list: &List<G>,
    hand: &mut Hand<G>,
    cursor: &mut Cursor,
    met: Walked,
    steps: &mut Steps<L>,
) -> Walked
    requires order { IsHandOf (MayValidateIn cursor.old) list.now hand.old }
    requires reader { reads_on hand.old.part.core.own ≡ true }
    requires conflict { StandsInConflict hand.old.part.seats hand.old.part.core }
    requires met { has_met met ≡ true }
    requires long { IsLong met ↔ IsSpent hand.old.part }
    ensures later { Leaves (IsLaterInTraversal cursor.old cursor.new) hand.old hand.new steps.old steps.new }
    ensures ends { LookEnds true hand.old.part hand.new.part result }
    ensures long { IsLong result ↔ IsSpent hand.new.part }
    ensures patient { has_met result ≡ true → hand.old.part.trace.taken + MOST_LOOKS ≤ hand.new.part.trace.taken }
    ensures bound { hand.new.part.trace.taken ≤ hand.old.part.trace.taken + most_steps hand.old.part.seats MOST_LOOKS }
{
    let mut last = met;
    let mut backoff = Backoff::new();
    for _ in 0..MOST_LOOKS {
        backoff.pause();
        last = validate(list, hand, cursor, steps);
        if !is_conflict(&last) {
            return last;
        }
    }
    last
}

/// Validates the hand's linked node. Where the call is patient, a reader in conflict looks again, and nobody else does.
/// `Place` says that its range is held.
pub(crate) fn validate_or_look<G: Guard, L: Ledger>(
    list: &List<G>,
    hand: &mut Hand<G>,
    cursor: &mut Cursor,
    patient: bool,
    steps: &mut Steps<L>,
) -> Walked
    requires order { IsHandOf (BeginsToValidate cursor.old) list.now hand.old }
    ensures later { Leaves (IsLaterInTraversal cursor.old cursor.new) hand.old hand.new steps.old steps.new }
    ensures ends { LookEnds patient hand.old.part hand.new.part result }
    ensures long { IsLong result ↔ IsSpent hand.new.part }
    ensures once { patient ≡ false → hand.new.part.trace.taken ≤ hand.old.part.trace.taken + 2 + 3 * (16 * hand.old.part.seats + 1) }
    ensures patient { patient ≡ true → has_met result ≡ true → reads_on hand.old.part.core.own ≡ true
        → hand.old.part.trace.taken + MOST_LOOKS < hand.new.part.trace.taken }
    ensures bound { hand.new.part.trace.taken ≤ hand.old.part.trace.taken + most_steps hand.old.part.seats (1 + looks_of MOST_LOOKS hand.old.part.core.own) }
{
    let walked = validate(list, hand, cursor, steps);
    if !patient {
        return walked;
    }
    if !is_conflict(&walked) {
        return walked;
    }
    if !is_reader(hand) {
        return walked;
    }
    look_again(list, hand, cursor, walked, steps)
}

/// When to begin anew after a refused round.
pub(crate) fn anew_after(why: NotHeld) -> Anew {
    match why {
        NotHeld::Again { .. } => Anew::AtOnce,
        _ => Anew::Later,
    }
}
