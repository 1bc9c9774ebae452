//! Scripts: what each hand does in turn, and what comes of it, as rows of data. A row is a call, a single step, or a
//! few of these that often stand together; where two hands meet within one call, that call is made step by step. A
//! reader may rely on the hands being in order after a script, whatever came of it.
ghost use Rattle.std.specs.Prelude.{◌≡◌, ◌<◌, length};
ghost use Rattle.test_list.specs.Trials.{IsSameHand, AreInOrder};

use crate::asking::is_outside;
use crate::calls::{Answer, Call, make_call};
use crate::keeping::keep_turns;
use crate::playing::make;
use epoch_pools::{Hand, List, Taken, ready};
use lock_core::{FreeGuard, Mode, Step};

/// What a hand does in a row of a script, and what comes of it.
#[derive(Clone, Copy, Debug, PartialEq, Eq)]
pub enum Move {
    /// A single step, and what its word was, 0 for a store.
    Step(Step, u64),
    /// A call, and what it answers.
    Call(Call, Answer),
    /// A call that the hand may not make.
    Never(Call),
    /// That node is taken and filled with a range that begins at the first number, ends below the second and is wanted
    /// so; the hand enters and finds its place.
    Finds(u32, u64, u64, Mode),
    /// Then it is linked and held, and the hand is outside.
    Holds,
    /// The hand enters, finds that word at the head, and leaves.
    Sees(u64),
    /// The hand holds the range 0 to 1 as a writer so many times, each given back by a mark.
    Turns(u32),
    /// The hand is turned to that list, counted from 0.
    To(u32),
    /// So many nodes are ready in the list to which the hand is turned.
    Ready(u32),
}

/// Whether each of these calls comes to what is stated.
fn are_made(list: &List<FreeGuard>, hand: &mut Hand<FreeGuard>, row: &[(Call, Answer)]) -> bool
    requires table { hand.old.table ≡ list.now.table }
    ensures same { IsSameHand hand.old hand.new }
{
    'row: for (which, answer) in row {
        if make_call(list, hand, *which) != Some(*answer) {
            return false;
        }
    }
    true
}

/// Whether each of these steps finds what is stated.
fn are_found(list: &List<FreeGuard>, hand: &mut Hand<FreeGuard>, row: &[(Step, u64)]) -> bool
    requires table { hand.old.table ≡ list.now.table }
    ensures same { IsSameHand hand.old hand.new }
{
    'row: for (kind, found) in row {
        if make(list, hand, *kind) != Some(*found) {
            return false;
        }
    }
    true
}

/// Whether a move of the hand comes to what is stated.
fn is_move(list: &List<FreeGuard>, hand: &mut Hand<FreeGuard>, next: Move) -> bool
    requires table { hand.old.table ≡ list.now.table }
    ensures same { IsSameHand hand.old hand.new }
{
    match next {
        Move::Step(kind, found) => are_found(list, hand, &[(kind, found)]),
        Move::Call(which, answer) => are_made(list, hand, &[(which, answer)]),
        Move::Never(which) => make_call(list, hand, which).is_none(),
        Move::Finds(node, lo, hi, mode) => are_made(
            list,
            hand,
            &[
                (Call::Take, Answer::Taken(Taken::Node(node))),
                (Call::Fill { lo, hi, mode }, Answer::Made),
                (Call::Begin, Answer::Made),
                (Call::Walk, Answer::Made),
            ],
        ),
        Move::Holds => are_made(
            list,
            hand,
            &[
                (Call::Link, Answer::Made),
                (Call::Validate, Answer::Made),
                (Call::End, Answer::Made),
            ],
        ),
        Move::Sees(head) => are_found(
            list,
            hand,
            &[(Step::Enter, 0), (Step::Walk, head), (Step::Leave, 0)],
        ),
        Move::Turns(turns) => keep_turns(list, hand, turns),
        Move::To(to) => {
            let may = to < hand.lists() && is_outside(hand.view()) && hand.view().cursor.is_none();
            if may {
                hand.turn(to);
            }
            may
        }
        Move::Ready(count) => ready(hand) == count,
    }
}

/// Whether a move of the hand of that number comes to what is stated.
fn is_move_by(
    list: &List<FreeGuard>,
    hands: &mut [Hand<FreeGuard>],
    number: usize,
    next: Move,
) -> bool
    requires there { number < length hands.old }
    requires order { AreInOrder list.now.table hands.old }
    ensures order { AreInOrder list.now.table hands.new }
{
    is_move(list, &mut hands[number], next)
}

/// Plays a script, each row by the hand of its number, and stops at the first row that comes to something else, or
/// whose hand isn't there. It gives that row, counted from 0, or None where all came to what is stated.
pub fn play(
    list: &List<FreeGuard>,
    hands: &mut [Hand<FreeGuard>],
    script: &[(usize, Move)],
) -> Option<usize>
    requires order { AreInOrder list.now.table hands.old }
    ensures order { AreInOrder list.now.table hands.new }
{
    let mut row = 0;
    'script: for (number, next) in script {
        if *number >= hands.len() {
            return Some(row);
        }
        if !is_move_by(list, hands, *number, *next) {
            return Some(row);
        }
        row = usize::wrapping_add(row, 1);
    }
    None
}
