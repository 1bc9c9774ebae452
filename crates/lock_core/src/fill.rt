//! The steps that fill the own node before it is linked: FillLo, FillHi, Aim, and ClearHome, which takes it. Nobody
//! else reaches the node meanwhile, so its words are stored plainly; what was stored is known in the view. This
//! project's own profile; the order of filling, aiming and linking follows Kogan, Dice and Issa 2020.
ghost use Rattle.std.specs.Prelude.{◌≡◌, ℕ, ◌*◌, ◌^◌, ◌<◌, ◌≤◌, IfSome};
ghost use Rattle.lock_core.specs.declared.steps.Step.TheVariants.{FillLo, FillHi, Aim, ClearHome};
ghost use Rattle.lock_core.specs.declared.views.Own.TheVariants.{Linked};
ghost use Rattle.lock_core.specs.Range.{IsRange};
ghost use Rattle.lock_core.specs.Words.{hi_word, word_count};
ghost use Rattle.lock_core.specs.Known.{aimed_of};
ghost use Rattle.lock_core.specs.Sizes.{MayStep};
ghost use Rattle.lock_core.specs.Machine.{plan, aim_of, is_at_place};
ghost use Rattle.lock_core.specs.Operations.{planned, IsEnabled, IsOpOf};

use crate::layout::Layout;
use crate::ops::Op;
use crate::range::{HIGHEST, Mode, Range};
use crate::views::{Cursor, Own, Todo, View};

/// The hi word of an end that is at most 2^62 and a mode.
#[inline(always)]
fn end_word(hi: u64, mode: Mode) -> u64
    requires { hi ≤ 2 ^ 62 }
    ensures { result ≡ hi_word hi mode }
{
    match mode {
        Mode::Reader => 2 * hi,
        Mode::Writer => 2 * hi + 1,
    }
}

/// An own node that is filled and aimed, so all its words but the home word are known.
#[derive(Clone, Copy)]
pub(crate) struct Aimed {
    pub(crate) node: u32,
    lo: u64,
    hi: u64,
    pub(crate) mode: Mode,
    pub(crate) aimed: u64,
}

impl Aimed {
    /// The own node, if it is filled and aimed.
    #[inline(always)]
    pub(crate) fn of(own: Own) -> Option<Aimed>
        ensures { result ≡ aimed_of own }
    {
        let Own::Filling {
            node,
            lo: Some(lo),
            hi: Some(hi),
            mode,
            aimed: Some(aimed),
        } = own
        else {
            return None;
        };
        Some(Aimed {
            node,
            lo,
            hi,
            mode,
            aimed,
        })
    }

    /// The own node once it is linked, with this still to do.
    #[inline(always)]
    pub(crate) fn linked(self, todo: Todo) -> Own
        requires { IsRange self.lo self.hi }
        ensures { result ≡ Linked self.node (record { lo = self.lo; hi = self.hi }) self.mode todo }
    {
        let Ok(range) = Range::of(self.lo, self.hi) else {
            unreachable!()
        };
        Own::Linked {
            node: self.node,
            range,
            mode: self.mode,
            todo,
        }
    }
}

/// Whether the cursor is at the end, or before a node whose lower end was compared.
#[inline(always)]
pub(crate) fn is_in_place(cursor: Cursor) -> bool
    ensures { result ≡ is_at_place cursor }
{
    cursor.cur == 0 || (cursor.next.is_none() && cursor.lo.is_some())
}

/// The word at which an Aim aims: 0 without a cursor, otherwise that of a cursor at its place.
#[inline(always)]
fn aim_at(cursor: Option<Cursor>) -> Option<u64>
    ensures { result ≡ aim_of cursor }
{
    match cursor {
        None => Some(0),
        Some(cursor) => {
            if cursor.cur % 2 == 0 && is_in_place(cursor) {
                Some(cursor.cur)
            } else {
                None
            }
        }
    }
}

/// FillLo: stores the lower end, while there is no aim and no cursor.
#[inline(always)]
pub(crate) fn fill_lo_op(seats: u32, seat: u32, view: &View, x: u64) -> Option<Op>
    requires { MayStep seats seat view.now }
    ensures op { IsOpOf (FillLo x) (plan seats seat view.now (FillLo x)) result }
    ensures there { IfSome result (λ op. op.place < word_count seats) }
{
    let Own::Filling {
        node,
        aimed: None,
        ..
    } = view.own
    else {
        return None;
    };
    if view.cursor.is_some() {
        return None;
    }
    Some(Op::store(Layout::of(seats, 0).lo(node), x))
}

/// FillLo: the lower end is known, and the higher one isn't.
#[inline(always)]
pub(crate) fn fill_lo_view(seats: u32, seat: u32, view: &mut View, x: u64)
    requires may { MayStep seats seat view.old }
    requires enabled { IsEnabled seats seat view.old (FillLo x) }
    ensures { (w : ℕ) → view.new ≡ (planned seats seat view.old (FillLo x)).view w }
{
    let Own::Filling { lo, hi, .. } = &mut view.own else {
        unreachable!()
    };
    *lo = Some(x);
    *hi = None;
}

/// FillHi: stores the higher end and the mode, above a lower end that is known.
#[inline(always)]
pub(crate) fn fill_hi_op(seats: u32, seat: u32, view: &View, x: u64, how: Mode) -> Option<Op>
    requires { MayStep seats seat view.now }
    ensures op { IsOpOf (FillHi x how) (plan seats seat view.now (FillHi x how)) result }
    ensures there { IfSome result (λ op. op.place < word_count seats) }
{
    let Own::Filling {
        node,
        lo: Some(lo),
        aimed: None,
        ..
    } = view.own
    else {
        return None;
    };
    if lo >= x || x > HIGHEST || view.cursor.is_some() {
        return None;
    }
    Some(Op::store(Layout::of(seats, 0).hi(node), end_word(x, how)))
}

/// FillHi: the higher end and the mode are known.
#[inline(always)]
pub(crate) fn fill_hi_view(seats: u32, seat: u32, view: &mut View, x: u64, how: Mode)
    requires may { MayStep seats seat view.old }
    requires enabled { IsEnabled seats seat view.old (FillHi x how) }
    ensures { (w : ℕ) → view.new ≡ (planned seats seat view.old (FillHi x how)).view w }
{
    let Own::Filling { hi, mode, .. } = &mut view.own else {
        unreachable!()
    };
    *hi = Some(x);
    *mode = how;
}

/// Aim: stores the cursor's word, or 0, in the own next word.
#[inline(always)]
pub(crate) fn aim_op(seats: u32, seat: u32, view: &View) -> Option<Op>
    requires { MayStep seats seat view.now }
    ensures op { IsOpOf Aim (plan seats seat view.now Aim) result }
    ensures there { IfSome result (λ op. op.place < word_count seats) }
{
    let Own::Filling {
        node,
        lo: Some(_),
        hi: Some(_),
        ..
    } = view.own
    else {
        return None;
    };
    let word = aim_at(view.cursor)?;
    Some(Op::store(Layout::of(seats, 0).next(node), word))
}

/// Aim: the own next word is known.
#[inline(always)]
pub(crate) fn aim_view(seats: u32, seat: u32, view: &mut View)
    requires may { MayStep seats seat view.old }
    requires enabled { IsEnabled seats seat view.old Aim }
    ensures { (w : ℕ) → view.new ≡ (planned seats seat view.old Aim).view w }
{
    let Own::Filling { aimed, .. } = &mut view.own else {
        unreachable!()
    };
    *aimed = aim_at(view.cursor);
}

/// ClearHome: stores 0 in the home word of the first ready node.
#[inline(always)]
pub(crate) fn clear_home_op(seats: u32, seat: u32, view: &View, node: u32) -> Option<Op>
    requires { MayStep seats seat view.now }
    ensures op { IsOpOf (ClearHome node) (plan seats seat view.now (ClearHome node)) result }
    ensures there { IfSome result (λ op. op.place < word_count seats) }
{
    let first = view.ready.first()?;
    if first != node || view.epoch % 2 != 0 || view.own != Own::Nothing {
        return None;
    }
    Some(Op::store(Layout::of(seats, 0).home(node), 0))
}

/// ClearHome: the node is the own one, and nothing is known of its words.
#[inline(always)]
pub(crate) fn clear_home_view(seats: u32, seat: u32, view: &mut View, node: u32)
    requires may { MayStep seats seat view.old }
    requires enabled { IsEnabled seats seat view.old (ClearHome node) }
    ensures { (w : ℕ) → view.new ≡ (planned seats seat view.old (ClearHome node)).view w }
{
    view.ready.take_first();
    view.own = Own::Filling {
        node,
        lo: None,
        hi: None,
        mode: Mode::Writer,
        aimed: None,
    };
}
