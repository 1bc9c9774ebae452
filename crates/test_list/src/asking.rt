//! Whether a call on the running list may be made, asked of a hand's view when a trial runs. These are the conditions
//! of `marked_list` as code, each named as its record there; a reader may rely on the condition holding where the
//! answer is yes. The order of the calls is that of Kogan, Dice and Issa 2020.
ghost use Rattle.std.specs.Prelude.{◌≡◌, ◌≤◌, true, is_some, IfSome};
ghost use Rattle.std.specs.Bool.{OnTrue};
ghost use Rattle.lock_core.specs.declared.views.Own.TheVariants.{Nothing};
ghost use Rattle.lock_core.specs.declared.views.Todo.TheVariants.{Done};
ghost use Rattle.lock_core.specs.Nodes.{Listed, listed};
ghost use Rattle.lock_core.specs.Views.{todo_of};
ghost use Rattle.lock_core.specs.Machine.{may_leave};
ghost use Rattle.marked_list.specs.Order.{IsOutside, IsInside, HasEnds, StandsAtPlace, MayFill, MayWalk, MayLink, MayValidate, MayEnd, MaySweep, MayQuickLink};
ghost use Rattle.test_list.specs.Trials.{IsHolding};
ghost use Rattle.test_list.specs.Calls.{IsDue, IsAtKnownNode, IsHeld};

use lock_core::{Cursor, Mode, Own, Todo, View, plain_node};

/// Whether the hand is outside, with nothing to be given home.
pub(crate) fn is_outside(view: &View) -> bool
    ensures { OnTrue result (IsOutside view.now) }
{
    view.epoch % 2 == 0 && view.hand.is_none()
}

/// Whether the hand is inside, with nothing to be given home.
fn is_inside(view: &View) -> bool
    ensures { OnTrue result (IsInside view.now) }
{
    view.epoch % 2 == 1 && view.hand.is_none()
}

/// Whether both of these are known.
fn are_known(lo: Option<u64>, hi: Option<u64>) -> bool
    ensures { OnTrue result ((is_some lo ≡ true) × (is_some hi ≡ true)) }
{
    lo.is_some() && hi.is_some()
}

/// Whether a node is being filled, and both its ends are known.
fn has_ends(view: &View) -> bool
    ensures { OnTrue result (HasEnds view.now.own) }
{
    match view.own {
        Own::Filling { lo, hi, .. } => are_known(lo, hi),
        _ => false,
    }
}

/// Whether there is no own node.
pub(crate) fn has_none(view: &View) -> bool
    ensures { OnTrue result (view.now.own ≡ Nothing) }
{
    match view.own {
        Own::Nothing => true,
        _ => false,
    }
}

/// The node, where it isn't aimed.
fn unaimed(node: u32, aimed: Option<u64>) -> Option<u32>
    ensures { IfSome result (λ n. (n ≡ node) × (aimed ≡ None)) }
{
    if aimed.is_some() {
        return None;
    }
    Some(node)
}

/// The node that may be filled, which was just taken.
pub(crate) fn may_fill(view: &View) -> Option<u32>
    ensures { IfSome result (λ n. MayFill view.now n) }
{
    if view.cursor.is_some() {
        return None;
    }
    match view.own {
        Own::Filling { node, aimed, .. } => unaimed(node, aimed),
        _ => None,
    }
}

/// Whether a walk may be begun.
pub(crate) fn may_walk(view: &View) -> bool
    ensures { OnTrue result (MayWalk view.now) }
{
    is_inside(view) && has_ends(view) && view.cursor.is_none()
}

/// Whether the cursor is at its place.
fn is_at_place(view: &View) -> bool
    ensures { OnTrue result (StandsAtPlace view.now.cursor) }
{
    let Some(cursor) = view.cursor else {
        return false;
    };
    if cursor.cur % 2 == 1 {
        return false;
    }
    cursor.cur == 0 || (cursor.next.is_none() && cursor.lo.is_some())
}

/// Whether the node may be linked.
pub(crate) fn may_link(view: &View) -> bool
    ensures { OnTrue result (MayLink view.now) }
{
    is_inside(view) && has_ends(view) && is_at_place(view)
}

/// What a linked node of that mode has to do, where it has it still to do.
fn first_of(mode: Mode, todo: Todo) -> Option<Todo>
    ensures { IfSome result (λ t. (t ≡ todo) × (todo ≡ todo_of mode)) }
{
    match (mode, todo) {
        (Mode::Reader, Todo::Forward) => Some(todo),
        (Mode::Writer, Todo::FromHead) => Some(todo),
        _ => None,
    }
}

/// Which validation a linked node has still to do.
fn due(view: &View) -> Option<Todo>
    ensures { IfSome result (λ t. IsDue view.now.own t) }
{
    match view.own {
        Own::Linked { mode, todo, .. } => first_of(mode, todo),
        _ => None,
    }
}

/// Whether the cursor knows the next word of its node, and may still look at all nodes of so many seats.
fn is_at_known_node(seats: u32, cursor: Cursor) -> bool
    requires few { seats ≤ 16 }
    ensures { OnTrue result (IsAtKnownNode seats cursor) }
{
    cursor.cur / 2 <= 256
        && plain_node(cursor.cur).is_some()
        && cursor.next.is_some()
        && cursor.seen <= 16 * seats
}

/// Whether a linked node may be validated: for the first time, after a lost exchange, or by a reader that met a
/// conflict.
pub(crate) fn may_validate(seats: u32, view: &View) -> bool
    requires few { seats ≤ 16 }
    ensures { OnTrue result (MayValidate seats view.now) }
{
    let Some(todo) = due(view) else {
        return false;
    };
    if !is_inside(view) {
        return false;
    }
    let Some(cursor) = view.cursor else {
        return true;
    };
    todo == Todo::Forward && is_at_known_node(seats, cursor)
}

/// Whether the node isn't between its link and the end of its validation.
fn is_settled(view: &View) -> bool
    ensures { result ≡ may_leave view.now.own }
{
    match view.own {
        Own::Linked { todo, .. } => todo == Todo::Done,
        _ => true,
    }
}

/// Whether a traversal may be ended.
pub(crate) fn may_end(view: &View) -> bool
    ensures { OnTrue result (MayEnd view.now) }
{
    is_inside(view) && is_settled(view)
}

/// Whether the own node is linked.
pub(crate) fn is_linked(view: &View) -> bool
    ensures { OnTrue result ((k : Listed) × (view.now.own ≡ listed k)) }
{
    match view.own {
        Own::Linked { .. } => true,
        _ => false,
    }
}

/// Whether the list may be swept.
pub(crate) fn may_sweep(view: &View) -> bool
    ensures { OnTrue result (MaySweep view.now) }
{
    is_outside(view) && has_none(view)
}

/// Whether the node may be linked at once.
pub(crate) fn may_quick_link(view: &View) -> bool
    ensures { OnTrue result (MayQuickLink view.now) }
{
    is_outside(view) && has_ends(view)
}

/// Whether nothing is left to do.
fn is_done(todo: Todo) -> bool
    ensures { OnTrue result (todo ≡ Done) }
{
    todo == Todo::Done
}

/// Whether a range is held.
pub(crate) fn is_held(view: &View) -> bool
    ensures { OnTrue result (IsHeld view.now.own) }
{
    match view.own {
        Own::Linked { todo, .. } => is_done(todo),
        _ => false,
    }
}

/// Whether a range is held, and the hand is outside.
pub(crate) fn is_holding(view: &View) -> bool
    ensures { OnTrue result (IsHolding view.now) }
{
    is_held(view) && is_outside(view)
}
