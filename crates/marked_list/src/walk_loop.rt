//! The loop of every walk: it begins at the head, or behind the own node of a reader that validates, settles a head
//! with the low bit, and looks at one node after another until it has an answer. One loop serves the walk for a place,
//! both validations and the sweep. It ends whatever other seats do: a walk looks at 16 nodes for each seat and one more
//! at most. Kogan, Dice and Issa 2020; the bound is this project's own.
ghost use Rattle.std.specs.Prelude.{◌≡◌, ◌+◌, ◌*◌, ◌%◌, ◌<◌, ◌≤◌, ◌↔◌, ℕ, IsOk, IfErr};
ghost use Rattle.marked_list.specs.Order.{StandsAt};
ghost use Rattle.marked_list.specs.Leaves.{IsLaterInWalk, IsSameWalk, IsNewWalk};
ghost use Rattle.marked_list.specs.Causes.{IsSpent, IsBoundedWalk, judged_in};
ghost use Rattle.marked_list.specs.Answers.{Answers, IsLong};
ghost use Rattle.marked_list.specs.Walking.{seen_of, HasRoom, MayBeginWalk, IsAtOddHead, IsCursorMade, IsSettled, IsFailed, Outcome};

use crate::answers::{Lost, Walked};
use crate::look::{arrival, look, lost_at};
use epoch_pools::{Hand, List, step};
use lock_core::{Guard, Step, View};
use std::sync::ledger::Ledger;
use word_rows::Steps;

/// How many nodes the cursor has looked at.
pub(crate) fn seen_in(view: &View) -> u32
    ensures { result ≡ seen_of view.now.cursor }
{
    match view.cursor {
        None => 0,
        Some(cursor) => cursor.seen,
    }
}

/// Makes a cursor, and returns the word that it names.
fn make_cursor<G: Guard, L: Ledger>(list: &List<G>, hand: &mut Hand<G>, steps: &mut Steps<L>) -> u64
    requires table { hand.old.table ≡ list.now.table }
    requires begins { MayBeginWalk hand.old.part.core }
    ensures table { hand.new.table ≡ hand.old.table }
    ensures made { IsCursorMade hand.old.part hand.new.part result }
    ensures counted { steps.new ≡ steps.old + 1 }
{
    step(list, hand, Step::Walk, steps)
}

/// Takes the low bit from the head, which the cursor found there.
fn settle<G: Guard, L: Ledger>(
    list: &List<G>,
    hand: &mut Hand<G>,
    steps: &mut Steps<L>,
) -> Result<(), Lost>
    requires table { hand.old.table ≡ list.now.table }
    requires head { IsAtOddHead hand.old.part.core }
    requires room { HasRoom hand.old.part }
    ensures table { hand.new.table ≡ hand.old.table }
    ensures settled { IsOk result → IsSettled hand.old.part hand.new.part }
    ensures lost { IfErr result (IsFailed hand.old.part hand.new.part) }
    ensures counted { steps.new ≡ steps.old + 1 }
{
    let Some(cursor) = hand.view().cursor else {
        unreachable!()
    };
    let found = step(list, hand, Step::Settle, steps);
    if found != cursor.cur {
        return Err(lost_at(hand.seats(), cursor, found));
    }
    Ok(())
}

/// Begins a walk: makes the cursor, and settles a head with the low bit. None where the cursor is at its first node.
pub(crate) fn begin_walk<G: Guard, L: Ledger>(
    list: &List<G>,
    hand: &mut Hand<G>,
    steps: &mut Steps<L>,
) -> Option<Walked>
    requires table { hand.old.table ≡ list.now.table }
    requires begins { MayBeginWalk hand.old.part.core }
    ensures table { hand.new.table ≡ hand.old.table }
    ensures later { IsLaterInWalk hand.old.part hand.new.part }
    ensures outcome { Outcome hand.old.part.trace.taken hand.old.part.core hand.new.part result }
    ensures walk { IsNewWalk hand.old.part.trace.taken hand.new.part }
    ensures judged { judged_in hand.new.part.trace.looked ≡ 0 }
    ensures some { 0 < hand.new.part.seats }
    ensures taken { hand.new.part.trace.taken ≤ hand.old.part.trace.taken + 2 }
    ensures counted { steps.new + hand.old.part.trace.taken ≡ steps.old + hand.new.part.trace.taken }
{
    let word = make_cursor(list, hand, steps);
    if word % 2 == 0 {
        return arrival(hand.view());
    }
    match settle(list, hand, steps) {
        Ok(()) => arrival(hand.view()),
        Err(lost) => Some(Walked::Lost(lost)),
    }
}

/// Looks at one node after another, until the walk has an answer.
pub(crate) fn walk_on<G: Guard, L: Ledger>(
    list: &List<G>,
    hand: &mut Hand<G>,
    steps: &mut Steps<L>,
) -> Walked
    requires table { hand.old.table ≡ list.now.table }
    requires stands { StandsAt hand.old.part.core }
    requires room { seen_of hand.old.part.core.cursor ≤ 16 * hand.old.part.seats }
    ensures table { hand.new.table ≡ hand.old.table }
    ensures later { IsLaterInWalk hand.old.part hand.new.part }
    ensures answer { Answers hand.old.part.trace.taken hand.old.part.core.own hand.new.part result }
    ensures long { IsLong result ↔ IsSpent hand.new.part }
    ensures bounded { IsBoundedWalk hand.new.part }
    ensures walk { IsSameWalk hand.old.part hand.new.part }
    ensures taken { hand.new.part.trace.taken ≤ hand.old.part.trace.taken + 3 * (16 * hand.old.part.seats + 1) }
    ensures counted { steps.new + hand.old.part.trace.taken ≡ steps.old + hand.new.part.trace.taken }
{
    let most = 16 * hand.seats() + 1;
    'nodes: while seen_in(hand.view()) < most {
        if let Some(answer) = look(list, hand, steps) {
            return answer;
        }
    }
    Walked::Long { visits: most }
}

/// A whole walk: begins it, and goes on until it has an answer.
pub(crate) fn whole_walk<G: Guard, L: Ledger>(
    list: &List<G>,
    hand: &mut Hand<G>,
    steps: &mut Steps<L>,
) -> Walked
    requires table { hand.old.table ≡ list.now.table }
    requires begins { MayBeginWalk hand.old.part.core }
    ensures table { hand.new.table ≡ hand.old.table }
    ensures later { IsLaterInWalk hand.old.part hand.new.part }
    ensures answer { Answers hand.old.part.trace.taken hand.old.part.core.own hand.new.part result }
    ensures long { IsLong result ↔ IsSpent hand.new.part }
    ensures bounded { IsBoundedWalk hand.new.part }
    ensures walk { IsNewWalk hand.old.part.trace.taken hand.new.part }
    ensures taken { hand.new.part.trace.taken ≤ hand.old.part.trace.taken + 2 + 3 * (16 * hand.old.part.seats + 1) }
    ensures counted { steps.new + hand.old.part.trace.taken ≡ steps.old + hand.new.part.trace.taken }
{
    if let Some(answer) = begin_walk(list, hand, steps) {
        return answer;
    }
    walk_on(list, hand, steps)
}
