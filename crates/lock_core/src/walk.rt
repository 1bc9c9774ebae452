//! The steps of a cursor along the list: Walk, ReadLo and ReadHi. Each loads one word; a cursor learns of its node
//! the next word, then the lower end, then the higher end, by which the node is judged. A node that is found marked
//! isn't judged but unlinked. Cursors follow Kogan, Dice and Issa 2020.
ghost use Rattle.std.specs.Prelude.{◌≡◌, ℕ, ◌+◌, ◌/◌, ◌%◌, ◌^◌, ◌<◌, ◌≤◌, ◌==◌, None, Some, IfSome};
ghost use Rattle.lock_core.specs.declared.views.Cursor.{Cursor};
ghost use Rattle.lock_core.specs.declared.steps.Step.TheVariants.{Walk, ReadLo, ReadHi};
ghost use Rattle.lock_core.specs.Words.{plain_node_of, word_count};
ghost use Rattle.lock_core.specs.Views.{seen_after, own_at, start_of, came_to, own_stopped, walk_cell};
ghost use Rattle.lock_core.specs.Known.{met_of};
ghost use Rattle.lock_core.specs.Sizes.{MayStep, NamesNode};
ghost use Rattle.lock_core.specs.Machine.{plan, may_judge};
ghost use Rattle.lock_core.specs.Operations.{planned, IsEnabled, IsOpOf};

use crate::compare::{Verdict, judge};
use crate::layout::Layout;
use crate::ops::Op;
use crate::views::{Cursor, Own, Todo, View};

/// The node that a next word without the low bit names. The word is one of a node's or of the end.
#[inline(always)]
pub fn plain_node(word: u64) -> Option<u32>
    requires { word / 2 ≤ 256 }
    ensures { result ≡ plain_node_of word }
{
    if word % 2 != 0 || word / 2 == 0 {
        return None;
    }
    Some((word / 2 - 1) as u32)
}

/// How many nodes a cursor has looked at once it came to this word.
#[inline(always)]
fn seen_next(seen: u32, word: u64) -> u32
    ensures { result ≡ seen_after seen word }
{
    if word / 2 == 0 {
        seen
    } else if seen < u32::MAX {
        seen + 1
    } else {
        u32::MAX
    }
}

/// The cursor came to this word: a linked own node may have its validation behind it then.
#[inline(always)]
fn reach(own: &mut Own, word: u64)
    ensures { own.new ≡ own_at own.old word }
{
    if let Own::Linked { node, todo, .. } = own {
        let ends = match *todo {
            Todo::Forward => word == 0,
            Todo::FromHead => word == 2 * (*node as u64 + 1),
            Todo::Done => false,
        };
        if ends {
            *todo = Todo::Done;
        }
    }
}

/// The cursor stopped: a reader has its validation behind it then.
#[inline(always)]
fn stop(own: &mut Own)
    ensures { own.new ≡ own_stopped own.old }
{
    if let Own::Linked { todo, .. } = own {
        if *todo == Todo::Forward {
            *todo = Todo::Done;
        }
    }
}

/// The node behind which a cursor begins, or none where that is the head.
#[inline(always)]
fn start(own: Own) -> Option<u32>
    ensures { result ≡ start_of own }
{
    match own {
        Own::Linked {
            node,
            todo: Todo::Forward,
            ..
        } => Some(node),
        _ => None,
    }
}

/// Moves the cursor to this word, behind this node.
#[inline(always)]
pub(crate) fn come_to(view: &mut View, prev: Option<u32>, word: u64, seen: u32)
    ensures { view.new ≡ came_to view.old prev word seen }
{
    view.cursor = Some(Cursor {
        prev,
        cur: word,
        next: None,
        lo: None,
        seen: seen_next(seen, word),
    });
    reach(&mut view.own, word);
}

/// Walk: loads the word at which a cursor begins, or the next word of the cursor's node.
#[inline(never)]
pub(crate) fn walk_op(seats: u32, seat: u32, view: &View) -> Option<Op>
    requires { MayStep seats seat view.now }
    ensures op { IsOpOf Walk (plan seats seat view.now Walk) result }
    ensures there { IfSome result (λ op. op.place < word_count seats) }
{
    if view.epoch % 2 != 1 || view.hand.is_some() {
        return None;
    }
    let layout = Layout::of(seats, 0);
    let place = match view.cursor {
        None => layout.cell(start(view.own)),
        Some(cursor) => {
            let node = plain_node(cursor.cur)?;
            layout.next(node)
        }
    };
    Some(Op::load(place))
}

/// Walk: there is a cursor, or the next word of its node is known.
#[inline(never)]
pub(crate) fn walk_view(seats: u32, seat: u32, view: &mut View, found: u64)
    requires may { MayStep seats seat view.old }
    requires enabled { IsEnabled seats seat view.old Walk }
    ensures { view.new ≡ (planned seats seat view.old Walk).view found }
{
    match &mut view.cursor {
        None => {
            let prev = start(view.own);
            come_to(view, prev, found, 0);
        }
        Some(cursor) => {
            cursor.next = Some(found);
            cursor.lo = None;
        }
    }
}

/// The cursor, the node that it names and that node's next word, where all three are known.
#[inline(always)]
pub(crate) fn met(cursor: Option<Cursor>) -> Option<(Cursor, u32, u64)>
    requires { (c : Cursor) → cursor ≡ Some c → c.cur / 2 ≤ 256 }
    ensures { result ≡ met_of cursor }
{
    let cursor = cursor?;
    let node = plain_node(cursor.cur)?;
    let next = cursor.next?;
    Some((cursor, node, next))
}

/// ReadLo: loads the lower end of the cursor's node, whose next word has no mark.
#[inline(never)]
pub(crate) fn read_lo_op(seats: u32, seat: u32, view: &View) -> Option<Op>
    requires { MayStep seats seat view.now }
    ensures op { IsOpOf ReadLo (plan seats seat view.now ReadLo) result }
    ensures there { IfSome result (λ op. op.place < word_count seats) }
{
    let (cursor, node, next) = met(view.cursor)?;
    if next % 2 != 0 {
        return None;
    }
    Some(Op::load(Layout::of(seats, 0).lo(node)))
}

/// ReadLo: the lower end is known.
#[inline(never)]
pub(crate) fn read_lo_view(seats: u32, seat: u32, view: &mut View, found: u64)
    requires may { MayStep seats seat view.old }
    requires enabled { IsEnabled seats seat view.old ReadLo }
    ensures { view.new ≡ (planned seats seat view.old ReadLo).view found }
{
    let Some(cursor) = &mut view.cursor else {
        unreachable!()
    };
    cursor.lo = Some(found);
}

/// Whether a node may be judged: a seat that fills a node knows its ends.
#[inline(always)]
fn knows_ends(own: Own) -> bool
    ensures { result ≡ may_judge own }
{
    match own {
        Own::Filling { lo, hi, .. } => lo.is_some() && hi.is_some(),
        _ => true,
    }
}

/// ReadHi: loads the higher end of the cursor's node, whose lower end is known.
#[inline(never)]
pub(crate) fn read_hi_op(seats: u32, seat: u32, view: &View) -> Option<Op>
    requires { MayStep seats seat view.now }
    ensures op { IsOpOf ReadHi (plan seats seat view.now ReadHi) result }
    ensures there { IfSome result (λ op. op.place < word_count seats) }
{
    let (cursor, node, next) = met(view.cursor)?;
    if cursor.lo.is_none() || next % 2 != 0 || !knows_ends(view.own) {
        return None;
    }
    Some(Op::load(Layout::of(seats, 0).hi(node)))
}

/// ReadHi: the node is judged, and the cursor goes on past it, stops before it, or stays at a conflict.
#[inline(never)]
pub(crate) fn read_hi_view(seats: u32, seat: u32, view: &mut View, found: u64)
    requires may { MayStep seats seat view.old }
    requires enabled { IsEnabled seats seat view.old ReadHi }
    ensures { view.new ≡ (planned seats seat view.old ReadHi).view found }
{
    let Some((cursor, node, next)) = met(view.cursor) else {
        unreachable!()
    };
    let Some(lo) = cursor.lo else { unreachable!() };
    match judge(&view.own, lo, found) {
        Verdict::Past => come_to(view, Some(node), next, cursor.seen),
        Verdict::Stop => {
            view.cursor = Some(Cursor {
                next: None,
                ..cursor
            });
            stop(&mut view.own);
        }
        Verdict::Conflict => {}
    }
}
