//! The fast path for an empty list: QuickLink, QuickUnlink and Settle. A node that is alone in the list stands in the
//! head with the low bit, and its range is held at once; whoever walks the list settles the head first, and from then
//! on the node is one like any other. The fast path of Kogan, Dice and Issa 2020.
ghost use Rattle.std.specs.Prelude.{◌≡◌, ℕ, ◌+◌, ◌%◌, ◌<◌, IfSome};
ghost use Rattle.lock_core.specs.declared.steps.Step.TheVariants.{QuickLink, QuickUnlink, Settle};
ghost use Rattle.lock_core.specs.Words.{word_count};
ghost use Rattle.lock_core.specs.Sizes.{MayStep};
ghost use Rattle.lock_core.specs.Machine.{plan};
ghost use Rattle.lock_core.specs.Operations.{planned, IsEnabled, IsOpOf};

use crate::fill::Aimed;
use crate::layout::{Layout, node_word};
use crate::ops::Op;
use crate::views::{Own, Todo, View};

/// QuickLink: exchanges an empty head for the own node with the low bit, outside an operation.
#[inline(always)]
pub(crate) fn quick_link_op(seats: u32, seat: u32, view: &View) -> Option<Op>
    requires { MayStep seats seat view.now }
    ensures op { IsOpOf QuickLink (plan seats seat view.now QuickLink) result }
    ensures there { IfSome result (λ op. op.place < word_count seats) }
{
    let own = Aimed::of(view.own)?;
    if own.aimed != 0 || view.epoch % 2 != 0 {
        return None;
    }
    Some(Op::exchange(Layout::of(seats, 0).head(), 0, node_word(own.node, true)))
}

/// QuickLink: the range is held where the head was empty.
#[inline(always)]
pub(crate) fn quick_link_view(seats: u32, seat: u32, view: &mut View, found: u64)
    requires may { MayStep seats seat view.old }
    requires enabled { IsEnabled seats seat view.old QuickLink }
    ensures { view.new ≡ (planned seats seat view.old QuickLink).view found }
{
    let Some(own) = Aimed::of(view.own) else {
        unreachable!()
    };
    if found == 0 {
        view.own = own.linked(Todo::Done);
    }
}

/// QuickUnlink: exchanges the head with the own node and the low bit for an empty head, where the range is held.
#[inline(always)]
pub(crate) fn quick_unlink_op(seats: u32, seat: u32, view: &View) -> Option<Op>
    requires { MayStep seats seat view.now }
    ensures op { IsOpOf QuickUnlink (plan seats seat view.now QuickUnlink) result }
    ensures there { IfSome result (λ op. op.place < word_count seats) }
{
    let Own::Linked { node, todo, .. } = view.own else {
        return None;
    };
    if todo != Todo::Done || view.hand.is_some() {
        return None;
    }
    Some(Op::exchange(Layout::of(seats, 0).head(), node_word(node, true), 0))
}

/// QuickUnlink: the own node is in the hand where the head was found as expected.
#[inline(always)]
pub(crate) fn quick_unlink_view(seats: u32, seat: u32, view: &mut View, found: u64)
    requires may { MayStep seats seat view.old }
    requires enabled { IsEnabled seats seat view.old QuickUnlink }
    ensures { view.new ≡ (planned seats seat view.old QuickUnlink).view found }
{
    let Own::Linked { node, .. } = view.own else {
        unreachable!()
    };
    if found == node_word(node, true) {
        view.own = Own::Nothing;
        view.used.push(node);
        view.hand = Some(node);
    }
}

/// Settle: exchanges the head that the cursor found with the low bit for the same without it.
#[inline(never)]
pub(crate) fn settle_op(seats: u32, seat: u32, view: &View) -> Option<Op>
    requires { MayStep seats seat view.now }
    ensures op { IsOpOf Settle (plan seats seat view.now Settle) result }
    ensures there { IfSome result (λ op. op.place < word_count seats) }
{
    let cursor = view.cursor?;
    if cursor.prev.is_some() || cursor.cur % 2 != 1 {
        return None;
    }
    Some(Op::exchange(Layout::of(seats, 0).head(), cursor.cur, cursor.cur - 1))
}

/// Settle: the cursor's word has no low bit where the head was found as expected; otherwise the cursor goes.
#[inline(never)]
pub(crate) fn settle_view(seats: u32, seat: u32, view: &mut View, found: u64)
    requires may { MayStep seats seat view.old }
    requires enabled { IsEnabled seats seat view.old Settle }
    ensures { view.new ≡ (planned seats seat view.old Settle).view found }
{
    let Some(cursor) = &mut view.cursor else {
        unreachable!()
    };
    if found == cursor.cur {
        cursor.cur -= 1;
    } else {
        view.cursor = None;
    }
}
