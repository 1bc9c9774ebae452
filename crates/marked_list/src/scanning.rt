//! A scan of the list, one node at a time: marked nodes are unlinked and given home on the way, and the scan stops once
//! it went past an unmarked node. It has no node of its own, so it is never in conflict. A reader may rely on a node
//! that is given having been unmarked at a step of the call that gives it. The walk is that of Kogan, Dice and Issa
//! 2020; a scan that stops after each node is this project's own profile.
ghost use Rattle.std.specs.Prelude.{◌≡◌, ◌⊎◌, ◌+◌, ◌*◌, ◌/◌, ◌%◌, ◌<◌, ◌≤◌, ℕ, None};
ghost use Rattle.lock_core.specs.Range.{IsRange};
ghost use Rattle.lock_core.specs.declared.views.Own.TheVariants.{Nothing};
ghost use Rattle.marked_list.specs.declared.answers.Passed.TheVariants.{End, Long};
ghost use Rattle.marked_list.specs.Order.{IsInside, StandsAt, KnowsNext};
ghost use Rattle.marked_list.specs.Leaves.{IsLaterInWalk, IsSameWalk, IsNewWalk};
ghost use Rattle.marked_list.specs.Causes.{judged_in};
ghost use Rattle.marked_list.specs.Answers.{IsAtEnd};
ghost use Rattle.marked_list.specs.Walking.{seen_of, KnowsLo, HasRoom, IsAtOthers, MayBeginWalk};
ghost use Rattle.marked_list.specs.Scanning.{found_with, passed_from, IsResting, IsScanWalk, PassesFrom, Passes, Sees};

use crate::answers::{Passed, Walked};
use crate::look::{load_lo, load_next, mode_in, remove_marked};
use crate::walk_loop::{begin_walk, seen_in};
use epoch_pools::{Hand, List, step};
use lock_core::{Guard, Range, Step};
use std::sync::ledger::Ledger;
use word_rows::Steps;

/// That the node which this word names was found, with its lower end and its hi word.
fn found(cur: u64, lo: u64, word: u64) -> Passed
    requires node { (2 ≤ cur) × (cur / 2 ≤ 256) }
    requires range { IsRange lo (word / 2) }
    ensures { result ≡ found_with cur lo word }
{
    let Ok(range) = Range::of(lo, word / 2) else {
        unreachable!()
    };
    Passed::Found {
        owner: ((cur / 2 - 1) / 16) as u32,
        range,
        mode: mode_in(word),
    }
}

/// The answer of a scan for that of a walk: a walk without an own node comes to its place at the end of the list.
fn passed(answer: Walked) -> Passed
    ensures { result ≡ passed_from answer }
{
    match answer {
        Walked::Place => Passed::End,
        Walked::Conflict { owner, range, mode } => Passed::Found { owner, range, mode },
        Walked::Lost(lost) => Passed::Lost(lost),
        Walked::Long { visits } => Passed::Long { visits },
    }
}

/// Loads the higher end of the cursor's node, whose lower end this is, and goes past the node.
fn pass_node<G: Guard, L: Ledger>(
    list: &List<G>,
    hand: &mut Hand<G>,
    lo: u64,
    steps: &mut Steps<L>,
) -> Passed
    requires table { hand.old.table ≡ list.now.table }
    requires knows { (n : ℕ) × KnowsLo hand.old.part.core n lo × (n % 2 ≡ 0) }
    requires own { hand.old.part.core.own ≡ Nothing }
    requires walked { hand.old.part.trace.walked < hand.old.part.trace.taken }
    requires room { HasRoom hand.old.part }
    ensures table { hand.new.table ≡ hand.old.table }
    ensures later { IsLaterInWalk hand.old.part hand.new.part }
    ensures own { hand.new.part.core.own ≡ Nothing }
    ensures walk { IsSameWalk hand.old.part hand.new.part }
    ensures answer { PassesFrom hand.old.part.trace.walked (judged_in hand.old.part.trace.looked) hand.new.part result }
    ensures taken { hand.new.part.trace.taken ≡ hand.old.part.trace.taken + 1 }
    ensures counted { steps.new ≡ steps.old + 1 }
{
    let Some(cursor) = hand.view().cursor else {
        unreachable!()
    };
    let word = step(list, hand, Step::ReadHi, steps);
    let _ = hand.view();
    found(cursor.cur, lo, word)
}

/// Unlinks the cursor's node, which was found marked, and gives it home: None where the scan goes on behind it.
fn skip_marked<G: Guard, L: Ledger>(
    list: &List<G>,
    hand: &mut Hand<G>,
    steps: &mut Steps<L>,
) -> Option<Passed>
    requires table { hand.old.table ≡ list.now.table }
    requires knows { (n : ℕ) × KnowsNext hand.old.part.core n × (n % 2 ≡ 1) }
    requires own { hand.old.part.core.own ≡ Nothing }
    requires room { HasRoom hand.old.part }
    ensures table { hand.new.table ≡ hand.old.table }
    ensures later { IsLaterInWalk hand.old.part hand.new.part }
    ensures own { hand.new.part.core.own ≡ Nothing }
    ensures walk { IsSameWalk hand.old.part hand.new.part }
    ensures sees { Sees hand.old.part.trace.taken hand.old.part hand.new.part result }
    ensures taken { hand.new.part.trace.taken ≤ hand.old.part.trace.taken + 2 }
    ensures counted { steps.new + hand.old.part.trace.taken ≡ steps.old + hand.new.part.trace.taken }
{
    let _ = hand.view();
    let answer = remove_marked(list, hand, steps);
    let _ = hand.view();
    Some(passed(answer?))
}

/// One look of a scan at the cursor's node: None where it was marked and the scan goes on.
fn scan_look<G: Guard, L: Ledger>(
    list: &List<G>,
    hand: &mut Hand<G>,
    steps: &mut Steps<L>,
) -> Option<Passed>
    requires table { hand.old.table ≡ list.now.table }
    requires stands { StandsAt hand.old.part.core }
    requires own { hand.old.part.core.own ≡ Nothing }
    requires room { HasRoom hand.old.part }
    ensures table { hand.new.table ≡ hand.old.table }
    ensures later { IsLaterInWalk hand.old.part hand.new.part }
    ensures own { hand.new.part.core.own ≡ Nothing }
    ensures walk { IsSameWalk hand.old.part hand.new.part }
    ensures sees { Sees hand.old.part.trace.taken hand.old.part hand.new.part result }
    ensures some { hand.old.part.trace.taken < hand.new.part.trace.taken }
    ensures taken { hand.new.part.trace.taken ≤ hand.old.part.trace.taken + 3 }
    ensures counted { steps.new + hand.old.part.trace.taken ≡ steps.old + hand.new.part.trace.taken }
{
    let _ = hand.view();
    let next = load_next(list, hand, steps);
    if next % 2 == 1 {
        return skip_marked(list, hand, steps);
    }
    let lo = load_lo(list, hand, steps);
    Some(pass_node(list, hand, lo, steps))
}

/// Goes on with a scan whose cursor is at a node, and may look at one node more.
fn scan_on<G: Guard, L: Ledger>(list: &List<G>, hand: &mut Hand<G>, steps: &mut Steps<L>) -> Passed
    requires table { hand.old.table ≡ list.now.table }
    requires stands { StandsAt hand.old.part.core }
    requires own { hand.old.part.core.own ≡ Nothing }
    requires room { seen_of hand.old.part.core.cursor ≤ 16 * hand.old.part.seats }
    ensures table { hand.new.table ≡ hand.old.table }
    ensures later { IsLaterInWalk hand.old.part hand.new.part }
    ensures own { hand.new.part.core.own ≡ Nothing }
    ensures walk { IsSameWalk hand.old.part hand.new.part }
    ensures answer { PassesFrom hand.old.part.trace.taken (judged_in hand.old.part.trace.looked) hand.new.part result }
    ensures some { hand.old.part.trace.taken < hand.new.part.trace.taken }
    ensures taken { hand.new.part.trace.taken ≤ hand.old.part.trace.taken + 3 * (16 * hand.old.part.seats + 1) }
    ensures counted { steps.new + hand.old.part.trace.taken ≡ steps.old + hand.new.part.trace.taken }
{
    let most = 16 * hand.seats() + 1;
    'nodes: while seen_in(hand.view()) < most {
        if let Some(answer) = scan_look(list, hand, steps) {
            return answer;
        }
    }
    Passed::Long { visits: most }
}

/// Begins a scan at the head, and goes on past at most one node.
fn scan_from_head<G: Guard, L: Ledger>(
    list: &List<G>,
    hand: &mut Hand<G>,
    steps: &mut Steps<L>,
) -> Passed
    requires table { hand.old.table ≡ list.now.table }
    requires begins { MayBeginWalk hand.old.part.core }
    requires own { hand.old.part.core.own ≡ Nothing }
    ensures table { hand.new.table ≡ hand.old.table }
    ensures later { IsLaterInWalk hand.old.part hand.new.part }
    ensures own { hand.new.part.core.own ≡ Nothing }
    ensures walk { IsNewWalk hand.old.part.trace.taken hand.new.part }
    ensures answer { PassesFrom hand.old.part.trace.taken 0 hand.new.part result }
    ensures taken { hand.new.part.trace.taken ≤ hand.old.part.trace.taken + 2 + 3 * (16 * hand.old.part.seats + 1) }
    ensures counted { steps.new + hand.old.part.trace.taken ≡ steps.old + hand.new.part.trace.taken }
{
    if let Some(answer) = begin_walk(list, hand, steps) {
        let _ = hand.view();
        return passed(answer);
    }
    scan_on(list, hand, steps)
}

/// Goes past one more node of the list, without a node of its own. The hand is inside its epoch, and its cursor, where
/// it has one, is at a node or at the end.
/// `Found` comes exactly where this call went past a node, and `End` where the end was read and it went past none.
/// After `End` or `Long` each further call gives the same answer and makes no step, and a call that makes no step
/// changes nothing. `Lost` is an exchange of this call; the next call begins at the head with a new count, and may give
/// a node a second time. No other call begins anew: the walk stays the one that the cursor is in.
pub fn pass<G: Guard, L: Ledger>(list: &List<G>, hand: &mut Hand<G>, steps: &mut Steps<L>) -> Passed
    requires table { hand.old.table ≡ list.now.table }
    requires inside { IsInside hand.old.part.core }
    requires own { hand.old.part.core.own ≡ Nothing }
    requires resting { IsResting hand.old.part.core }
    ensures table { hand.new.table ≡ hand.old.table }
    ensures later { IsLaterInWalk hand.old.part hand.new.part }
    ensures own { hand.new.part.core.own ≡ Nothing }
    ensures walk { IsScanWalk hand.old.part.core.cursor hand.old.part hand.new.part }
    ensures resting { IsResting hand.new.part.core }
    ensures answer { Passes hand.old.part hand.new.part result }
    ensures ended { IsAtEnd hand.old.part.core.cursor → (hand.new.part ≡ hand.old.part) × (result ≡ End) }
    ensures spent { seen_of hand.old.part.core.cursor ≡ 16 * hand.old.part.seats + 1
        → (hand.new.part ≡ hand.old.part) × (result ≡ Long (16 * hand.old.part.seats + 1)) }
    ensures moved { (hand.new.part ≡ hand.old.part) ⊎ (hand.old.part.trace.taken < hand.new.part.trace.taken) }
    ensures bound { hand.new.part.trace.taken ≤ hand.old.part.trace.taken + 2 + 3 * (16 * hand.old.part.seats + 1) }
    ensures counted { steps.new + hand.old.part.trace.taken ≡ steps.old + hand.new.part.trace.taken }
{
    let Some(cursor) = hand.view().cursor else {
        return scan_from_head(list, hand, steps);
    };
    let most = 16 * hand.seats() + 1;
    if cursor.cur == 0 {
        return Passed::End;
    }
    if cursor.seen >= most {
        return Passed::Long { visits: most };
    }
    scan_on(list, hand, steps)
}
