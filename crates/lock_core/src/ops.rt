//! One step of a seat, cut in two for a lock that runs on atomic words: the operation on one word, by the view before
//! it, and the view afterwards, by the value that the word had. Both halves together are the line of the step table
//! (`specs/StepTable.antt`); `apply` makes its steps by them too, so a step's effect stands nowhere else. This
//! project's own profile, over the list of Kogan, Dice and Issa 2020.
ghost use Rattle.std.specs.Prelude.{◌≡◌, ◌<◌, ◌≤◌, IfSome, is_some};
ghost use Rattle.lock_core.specs.declared.ops.Act.TheVariants.{Load, Store, Add, Exchange};
ghost use Rattle.lock_core.specs.Words.{word_count};
ghost use Rattle.lock_core.specs.Sizes.{IsViewSized, MayStep};
ghost use Rattle.lock_core.specs.Machine.{plan};
ghost use Rattle.lock_core.specs.Operations.{planned, IsEnabled, IsOp, IsOpOf, written};

use crate::fill::{
    aim_op, aim_view, clear_home_op, clear_home_view, fill_hi_op, fill_hi_view, fill_lo_op,
    fill_lo_view,
};
use crate::link::{link_op, link_view, mark_op, mark_view, unlink_op, unlink_view};
use crate::pools::{
    enter_op, enter_view, give_home_op, give_home_view, leave_op, leave_view, read_epoch_op,
    read_epoch_view, read_home_op, read_home_view,
};
use crate::quick::{
    quick_link_op, quick_link_view, quick_unlink_op, quick_unlink_view, settle_op, settle_view,
};
use crate::steps::Step;
use crate::views::View;
use crate::walk::{read_hi_op, read_hi_view, read_lo_op, read_lo_view, walk_op, walk_view};

/// One atomic operation on a word.
#[derive(Clone, Copy, Debug, PartialEq, Eq)]
pub enum Act {
    /// Loads the word.
    Load,
    /// Stores a value.
    Store { value: u64 },
    /// Adds 1; the sum wraps.
    Add,
    /// Stores `new` where the word is `old`.
    Exchange { old: u64, new: u64 },
}

impl Act {
    /// What the operation makes of a word.
    pub fn written(self, word: u64) -> u64
        ensures { result ≡ written self word }
    {
        match self {
            Act::Load => word,
            Act::Store { value } => value,
            Act::Add => word.wrapping_add(1),
            Act::Exchange { old, new } => { if word == old { new } else { word } }
        }
    }
}

/// An operation and the place of its word.
#[derive(Clone, Copy, Debug, PartialEq, Eq)]
pub struct Op {
    /// The place, below the number of the lock's words.
    pub place: u32,
    /// The operation.
    pub act: Act,
}

impl Op {
    /// A load of the word at this place.
    #[inline(always)]
    pub(crate) fn load(place: u32) -> Op
        ensures { result ≡ record { place = place; act = Load } }
    {
        Op {
            place,
            act: Act::Load,
        }
    }

    /// A store of this value.
    #[inline(always)]
    pub(crate) fn store(place: u32, value: u64) -> Op
        ensures { result ≡ record { place = place; act = Store value } }
    {
        Op {
            place,
            act: Act::Store { value },
        }
    }

    /// An addition of 1.
    #[inline(always)]
    pub(crate) fn add(place: u32) -> Op
        ensures { result ≡ record { place = place; act = Add } }
    {
        Op {
            place,
            act: Act::Add,
        }
    }

    /// An exchange of the old value for the new one.
    #[inline(always)]
    pub(crate) fn exchange(place: u32, old: u64, new: u64) -> Op
        ensures { result ≡ record { place = place; act = Exchange old new } }
    {
        Op {
            place,
            act: Act::Exchange { old, new },
        }
    }
}

/// The operation of a step, or None where the view doesn't enable the step.
#[inline(always)]
fn op_in(seats: u32, seat: u32, view: &View, step: Step) -> Option<Op>
    requires { MayStep seats seat view.now }
    ensures op { IsOpOf step (plan seats seat view.now step) result }
    ensures there { IfSome result (λ op. op.place < word_count seats) }
{
    match step {
        Step::Enter => enter_op(seats, seat, view),
        Step::Leave => leave_op(seats, seat, view),
        Step::ReadEpoch { seat: other } => read_epoch_op(seats, seat, view, other),
        Step::ReadHome { node } => read_home_op(seats, seat, view, node),
        Step::GiveHome => give_home_op(seats, seat, view),
        Step::FillLo { lo } => fill_lo_op(seats, seat, view, lo),
        Step::FillHi { hi, mode } => fill_hi_op(seats, seat, view, hi, mode),
        Step::Aim => aim_op(seats, seat, view),
        Step::ClearHome { node } => clear_home_op(seats, seat, view, node),
        Step::Walk => walk_op(seats, seat, view),
        Step::ReadLo => read_lo_op(seats, seat, view),
        Step::ReadHi => read_hi_op(seats, seat, view),
        Step::Link => link_op(seats, seat, view),
        Step::Unlink => unlink_op(seats, seat, view),
        Step::Mark => mark_op(seats, seat, view),
        Step::QuickLink => quick_link_op(seats, seat, view),
        Step::QuickUnlink => quick_unlink_op(seats, seat, view),
        Step::Settle => settle_op(seats, seat, view),
    }
}

/// The view after a step that it enables.
#[inline(always)]
fn follow_in(seats: u32, seat: u32, view: &mut View, step: Step, found: u64)
    requires may { MayStep seats seat view.old }
    requires enabled { IsEnabled seats seat view.old step }
    ensures { view.new ≡ (planned seats seat view.old step).view found }
{
    match step {
        Step::Enter => enter_view(seats, seat, view),
        Step::Leave => leave_view(seats, seat, view),
        Step::ReadEpoch { seat: other } => read_epoch_view(seats, seat, view, other, found),
        Step::ReadHome { node } => read_home_view(seats, seat, view, node, found),
        Step::GiveHome => give_home_view(seats, seat, view),
        Step::FillLo { lo } => fill_lo_view(seats, seat, view, lo),
        Step::FillHi { hi, mode } => fill_hi_view(seats, seat, view, hi, mode),
        Step::Aim => aim_view(seats, seat, view),
        Step::ClearHome { node } => clear_home_view(seats, seat, view, node),
        Step::Walk => walk_view(seats, seat, view, found),
        Step::ReadLo => read_lo_view(seats, seat, view, found),
        Step::ReadHi => read_hi_view(seats, seat, view, found),
        Step::Link => link_view(seats, seat, view, found),
        Step::Unlink => unlink_view(seats, seat, view, found),
        Step::Mark => mark_view(seats, seat, view),
        Step::QuickLink => quick_link_view(seats, seat, view, found),
        Step::QuickUnlink => quick_unlink_view(seats, seat, view, found),
        Step::Settle => settle_view(seats, seat, view, found),
    }
}

/// The operation of a step, or None where the view of this seat doesn't enable the step. Seats are counted from 0.
#[inline(always)]
pub fn enabled_op(seats: u32, seat: u32, view: &View, step: Step) -> Option<Op>
    requires few { seats ≤ 16 }
    requires seat { seat < seats }
    requires sized { IsViewSized seats seat view.now }
    ensures op { IsOpOf step (plan seats seat view.now step) result }
    ensures there { IfSome result (λ op. op.place < word_count seats) }
{
    op_in(seats, seat, view, step)
}

/// Whether the view of this seat enables the step.
pub fn is_enabled(seats: u32, seat: u32, view: &View, step: Step) -> bool
    requires few { seats ≤ 16 }
    requires seat { seat < seats }
    requires sized { IsViewSized seats seat view.now }
    ensures { result ≡ is_some (plan seats seat view.now step) }
{
    enabled_op(seats, seat, view, step).is_some()
}

/// The operation of a step that the view of this seat enables.
#[inline(always)]
pub fn op_of(seats: u32, seat: u32, view: &View, step: Step) -> Op
    requires few { seats ≤ 16 }
    requires seat { seat < seats }
    requires sized { IsViewSized seats seat view.now }
    requires enabled { IsEnabled seats seat view.now step }
    ensures op { IsOp step (planned seats seat view.now step) result }
    ensures there { result.place < word_count seats }
{
    let Some(op) = enabled_op(seats, seat, view, step) else {
        unreachable!()
    };
    op
}

/// Changes the view of this seat by a step that it enables and that found this value in its word.
#[inline(always)]
pub fn follow(seats: u32, seat: u32, view: &mut View, step: Step, found: u64)
    requires few { seats ≤ 16 }
    requires seat { seat < seats }
    requires sized { IsViewSized seats seat view.old }
    requires enabled { IsEnabled seats seat view.old step }
    ensures { view.new ≡ (planned seats seat view.old step).view found }
{
    follow_in(seats, seat, view, step, found);
}
