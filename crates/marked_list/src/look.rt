//! One look at one node, the one that the cursor is at: its next word is loaded; where that has the mark, the node is
//! unlinked and given home, and otherwise its ends are loaded and it is judged by the own node. The rules are those of
//! `specs/Compare.antt` in `lock_core`; a node that is found marked is never judged. A reader may rely on a conflict
//! naming a node of another seat that this look found unmarked. Kogan, Dice and Issa 2020.
ghost use Rattle.std.specs.Prelude.{◌≡◌, ◌+◌, ◌*◌, ◌/◌, ◌%◌, ◌<◌, ◌≤◌, ℕ, Some, IfOk, IfErr, is_some, true};
ghost use Rattle.lock_core.specs.Range.{IsRange};
ghost use Rattle.lock_core.specs.declared.views.Cursor.{Cursor};
ghost use Rattle.lock_core.specs.Words.{cell_place, cell_of, mode_of};
ghost use Rattle.lock_core.specs.Machine.{held_at};
ghost use Rattle.marked_list.specs.Order.{StandsAt, KnowsNext};
ghost use Rattle.marked_list.specs.Leaves.{IsLaterInWalk, IsSameWalk, HasJudged};
ghost use Rattle.marked_list.specs.Walking.{arrival_at, conflict_with, judgement_at, KnowsLo, HasRoom, IsAtOthers, IsLoad, IsUnlinked, IsFailed, Outcome};

use crate::answers::{Lost, Walked};
use epoch_pools::{Hand, List, give_home, step};
use lock_core::{Cursor, Guard, Layout, Mode, Own, Range, Step, Todo, View};
use std::sync::ledger::Ledger;
use word_rows::Steps;

/// The mode that a hi word says.
pub(crate) fn mode_in(word: u64) -> Mode
    ensures { result ≡ mode_of word }
{
    if word % 2 == 1 {
        Mode::Writer
    } else {
        Mode::Reader
    }
}

/// Whether the own node's range is held.
fn is_held(own: Own) -> bool
    ensures { result ≡ is_some (held_at own) }
{
    match own {
        Own::Linked {
            todo: Todo::Done,
            ..
        } => true,
        _ => false,
    }
}

/// That the node which this word names is in conflict, with its lower end and its hi word.
fn conflict(cur: u64, lo: u64, word: u64) -> Walked
    requires node { (2 ≤ cur) × (cur / 2 ≤ 256) }
    requires range { IsRange lo (word / 2) }
    ensures { result ≡ conflict_with cur lo word }
{
    let Ok(range) = Range::of(lo, word / 2) else {
        unreachable!()
    };
    Walked::Conflict {
        owner: ((cur / 2 - 1) / 16) as u32,
        range,
        mode: mode_in(word),
    }
}

/// That the walk has come to its end, where it has.
pub(crate) fn arrival(view: &View) -> Option<Walked>
    ensures { result ≡ arrival_at view.now.own view.now.cursor }
{
    let cursor = view.cursor?;
    if is_held(view.own) || cursor.cur == 0 || cursor.lo.is_some() {
        Some(Walked::Place)
    } else {
        None
    }
}

/// What a judgement left of the cursor tells.
fn judgement(view: &View, lo: u64, word: u64) -> Option<Walked>
    requires node { (c : Cursor) → view.now.cursor ≡ Some c → is_some c.next ≡ true → (2 ≤ c.cur) × (c.cur / 2 ≤ 256) }
    requires range { IsRange lo (word / 2) }
    ensures { result ≡ judgement_at view.now.own view.now.cursor lo word }
{
    let cursor = view.cursor?;
    if cursor.next.is_some() {
        return Some(conflict(cursor.cur, lo, word));
    }
    arrival(view)
}

/// An exchange of the cursor's word that found another value.
pub(crate) fn lost_at(seats: u32, cursor: Cursor, found: u64) -> Lost
    requires seats { (0 < seats) × (seats ≤ 16) }
    requires prev { (n : ℕ) → cursor.prev ≡ Some n → n < 16 * seats }
    ensures place { result.place ≡ cell_place seats (cell_of cursor.prev) }
    ensures values { (result.expected ≡ cursor.cur) × (result.found ≡ found) }
{
    Lost {
        place: Layout::of(seats, 0).cell(cursor.prev),
        expected: cursor.cur,
        found,
    }
}

/// Loads the next word of the cursor's node.
pub(crate) fn load_next<G: Guard, L: Ledger>(
    list: &List<G>,
    hand: &mut Hand<G>,
    steps: &mut Steps<L>,
) -> u64
    requires table { hand.old.table ≡ list.now.table }
    requires stands { StandsAt hand.old.part.core }
    ensures table { hand.new.table ≡ hand.old.table }
    ensures knows { KnowsNext hand.new.part.core result }
    ensures load { IsLoad hand.old.part hand.new.part }
    ensures other { result % 2 ≡ 0 → IsAtOthers hand.new.part }
    ensures walked { hand.new.part.trace.walked ≡ hand.old.part.trace.taken }
    ensures counted { steps.new ≡ steps.old + 1 }
{
    step(list, hand, Step::Walk, steps)
}

/// Loads the lower end of the cursor's node, whose next word is known and has no mark.
pub(crate) fn load_lo<G: Guard, L: Ledger>(
    list: &List<G>,
    hand: &mut Hand<G>,
    steps: &mut Steps<L>,
) -> u64
    requires table { hand.old.table ≡ list.now.table }
    requires knows { (n : ℕ) × KnowsNext hand.old.part.core n × (n % 2 ≡ 0) }
    requires other { IsAtOthers hand.old.part }
    ensures table { hand.new.table ≡ hand.old.table }
    ensures knows { (n : ℕ) × KnowsLo hand.new.part.core n result × (n % 2 ≡ 0) }
    ensures load { IsLoad hand.old.part hand.new.part }
    ensures other { IsAtOthers hand.new.part }
    ensures walked { hand.new.part.trace.walked ≡ hand.old.part.trace.walked }
    ensures counted { steps.new ≡ steps.old + 1 }
{
    step(list, hand, Step::ReadLo, steps)
}

/// Loads the higher end of the cursor's node, whose lower end this is, and judges the node.
fn judge<G: Guard, L: Ledger>(
    list: &List<G>,
    hand: &mut Hand<G>,
    lo: u64,
    steps: &mut Steps<L>,
) -> Option<Walked>
    requires table { hand.old.table ≡ list.now.table }
    requires knows { (n : ℕ) × KnowsLo hand.old.part.core n lo × (n % 2 ≡ 0) }
    requires other { IsAtOthers hand.old.part }
    requires walked { hand.old.part.trace.walked < hand.old.part.trace.taken }
    requires room { HasRoom hand.old.part }
    ensures table { hand.new.table ≡ hand.old.table }
    ensures later { IsLaterInWalk hand.old.part hand.new.part }
    ensures outcome { Outcome hand.old.part.trace.walked hand.old.part.core hand.new.part result }
    ensures walk { IsSameWalk hand.old.part hand.new.part }
    ensures taken { hand.new.part.trace.taken ≡ hand.old.part.trace.taken + 1 }
    ensures counted { steps.new ≡ steps.old + 1 }
{
    let word = step(list, hand, Step::ReadHi, steps);
    judgement(hand.view(), lo, word)
}

/// Unlinks the cursor's node, whose next word is known and has the mark, and returns it. It is to be given home.
fn unlink<G: Guard, L: Ledger>(
    list: &List<G>,
    hand: &mut Hand<G>,
    steps: &mut Steps<L>,
) -> Result<u32, Lost>
    requires table { hand.old.table ≡ list.now.table }
    requires knows { (n : ℕ) × KnowsNext hand.old.part.core n × (n % 2 ≡ 1) }
    requires room { HasRoom hand.old.part }
    ensures table { hand.new.table ≡ hand.old.table }
    ensures unlinked { IfOk result (IsUnlinked hand.old.part hand.new.part) }
    ensures lost { IfErr result (IsFailed hand.old.part hand.new.part) }
    ensures counted { steps.new ≡ steps.old + 1 }
{
    let Some(cursor) = hand.view().cursor else {
        unreachable!()
    };
    let found = step(list, hand, Step::Unlink, steps);
    let Some(node) = hand.view().hand else {
        return Err(lost_at(hand.seats(), cursor, found));
    };
    Ok(node)
}

/// Unlinks the cursor's node, whose next word is known and has the mark, and gives it home: None where the walk goes
/// on.
pub(crate) fn remove_marked<G: Guard, L: Ledger>(
    list: &List<G>,
    hand: &mut Hand<G>,
    steps: &mut Steps<L>,
) -> Option<Walked>
    requires table { hand.old.table ≡ list.now.table }
    requires knows { (n : ℕ) × KnowsNext hand.old.part.core n × (n % 2 ≡ 1) }
    requires room { HasRoom hand.old.part }
    ensures table { hand.new.table ≡ hand.old.table }
    ensures later { IsLaterInWalk hand.old.part hand.new.part }
    ensures outcome { Outcome hand.old.part.trace.taken hand.old.part.core hand.new.part result }
    ensures walk { IsSameWalk hand.old.part hand.new.part }
    ensures judged { HasJudged 0 hand.old.part hand.new.part }
    ensures taken { hand.new.part.trace.taken ≤ hand.old.part.trace.taken + 2 }
    ensures counted { steps.new + hand.old.part.trace.taken ≡ steps.old + hand.new.part.trace.taken }
{
    match unlink(list, hand, steps) {
        Ok(node) => {
            give_home(list, hand, node, steps);
            arrival(hand.view())
        }
        Err(lost) => Some(Walked::Lost(lost)),
    }
}

/// One look at the cursor's node: None where the walk goes on, with the cursor at the next node.
pub(crate) fn look<G: Guard, L: Ledger>(
    list: &List<G>,
    hand: &mut Hand<G>,
    steps: &mut Steps<L>,
) -> Option<Walked>
    requires table { hand.old.table ≡ list.now.table }
    requires stands { StandsAt hand.old.part.core }
    requires room { HasRoom hand.old.part }
    ensures table { hand.new.table ≡ hand.old.table }
    ensures later { IsLaterInWalk hand.old.part hand.new.part }
    ensures outcome { Outcome hand.old.part.trace.taken hand.old.part.core hand.new.part result }
    ensures walk { IsSameWalk hand.old.part hand.new.part }
    ensures taken { hand.new.part.trace.taken ≤ hand.old.part.trace.taken + 3 }
    ensures counted { steps.new + hand.old.part.trace.taken ≡ steps.old + hand.new.part.trace.taken }
{
    let next = load_next(list, hand, steps);
    if next % 2 == 1 {
        remove_marked(list, hand, steps)
    } else {
        let lo = load_lo(list, hand, steps);
        judge(list, hand, lo, steps)
    }
}
