//! The exchanges that change the list, and the mark: Link, Unlink and Mark. A node is linked at the cursor's place,
//! unlinked once it is marked, and marked by its owner alone. An exchange that finds another value changes no word
//! and lets the cursor go. Harris 2001 for the mark and the unlinking by whoever passes; Kogan, Dice and Issa 2020
//! for the list of ranges.
ghost use Rattle.std.specs.Prelude.{◌≡◌, ℕ, ◌+◌, ◌%◌, ◌<◌, IfSome};
ghost use Rattle.lock_core.specs.declared.steps.Step.TheVariants.{Link, Unlink, Mark};
ghost use Rattle.lock_core.specs.Words.{word_count};
ghost use Rattle.lock_core.specs.Views.{todo_of};
ghost use Rattle.lock_core.specs.Sizes.{MayStep};
ghost use Rattle.lock_core.specs.Machine.{plan};
ghost use Rattle.lock_core.specs.Operations.{planned, IsEnabled, IsOpOf};

use crate::fill::{Aimed, is_in_place};
use crate::layout::{Layout, node_word};
use crate::ops::Op;
use crate::range::Mode;
use crate::views::{Own, Todo, View};
use crate::walk::{come_to, met};

/// What is to be done after a link in this mode.
#[inline(always)]
fn todo_after(mode: Mode) -> Todo
    ensures { result ≡ todo_of mode }
{
    match mode {
        Mode::Reader => Todo::Forward,
        Mode::Writer => Todo::FromHead,
    }
}

/// Link: exchanges the cursor's word for the own node, which is aimed at that word.
#[inline(never)]
pub(crate) fn link_op(seats: u32, seat: u32, view: &View) -> Option<Op>
    requires { MayStep seats seat view.now }
    ensures op { IsOpOf Link (plan seats seat view.now Link) result }
    ensures there { IfSome result (λ op. op.place < word_count seats) }
{
    let own = Aimed::of(view.own)?;
    let cursor = view.cursor?;
    if own.aimed != cursor.cur || cursor.cur % 2 != 0 || !is_in_place(cursor) {
        return None;
    }
    Some(Op::exchange(
        Layout::of(seats, 0).cell(cursor.prev),
        cursor.cur,
        node_word(own.node, false),
    ))
}

/// Link: the own node is linked where the word was found as expected; the cursor goes.
#[inline(never)]
pub(crate) fn link_view(seats: u32, seat: u32, view: &mut View, found: u64)
    requires may { MayStep seats seat view.old }
    requires enabled { IsEnabled seats seat view.old Link }
    ensures { view.new ≡ (planned seats seat view.old Link).view found }
{
    let Some(own) = Aimed::of(view.own) else {
        unreachable!()
    };
    if found == own.aimed {
        view.own = own.linked(todo_after(own.mode));
    }
    view.cursor = None;
}

/// Unlink: exchanges the cursor's word for the next word of the cursor's node, which is marked, without the mark.
#[inline(never)]
pub(crate) fn unlink_op(seats: u32, seat: u32, view: &View) -> Option<Op>
    requires { MayStep seats seat view.now }
    ensures op { IsOpOf Unlink (plan seats seat view.now Unlink) result }
    ensures there { IfSome result (λ op. op.place < word_count seats) }
{
    let (cursor, _, next) = met(view.cursor)?;
    if next % 2 != 1 || view.hand.is_some() {
        return None;
    }
    Some(Op::exchange(Layout::of(seats, 0).cell(cursor.prev), cursor.cur, next - 1))
}

/// Unlink: the node is in the hand where the word was found as expected; otherwise the cursor goes.
#[inline(never)]
pub(crate) fn unlink_view(seats: u32, seat: u32, view: &mut View, found: u64)
    requires may { MayStep seats seat view.old }
    requires enabled { IsEnabled seats seat view.old Unlink }
    ensures { view.new ≡ (planned seats seat view.old Unlink).view found }
{
    let Some((cursor, node, next)) = met(view.cursor) else {
        unreachable!()
    };
    if found == cursor.cur {
        come_to(view, cursor.prev, next - 1, cursor.seen);
        view.hand = Some(node);
    } else {
        view.cursor = None;
    }
}

/// Mark: adds the mark to the next word of the own node.
#[inline(never)]
pub(crate) fn mark_op(seats: u32, seat: u32, view: &View) -> Option<Op>
    requires { MayStep seats seat view.now }
    ensures op { IsOpOf Mark (plan seats seat view.now Mark) result }
    ensures there { IfSome result (λ op. op.place < word_count seats) }
{
    let Own::Linked { node, .. } = view.own else {
        return None;
    };
    Some(Op::add(Layout::of(seats, 0).next(node)))
}

/// Mark: the own node is a used one, and its range is given back.
#[inline(never)]
pub(crate) fn mark_view(seats: u32, seat: u32, view: &mut View)
    requires may { MayStep seats seat view.old }
    requires enabled { IsEnabled seats seat view.old Mark }
    ensures { (w : ℕ) → view.new ≡ (planned seats seat view.old Mark).view w }
{
    let Own::Linked { node, .. } = view.own else {
        unreachable!()
    };
    view.own = Own::Nothing;
    view.used.push(node);
}
