//! How a range is held in a table of several lists. A narrow range is linked in the list of its region, and its seat
//! looks at list 0 then; a wide one is linked in list 0, and its seat looks at each list that it takes, in rising
//! order. A list that isn't empty is swept and looked at again, and where it still isn't, the seat links the same
//! range there too, looks, and gives that node back. Each function works in one list, to which it turns the hand; a
//! reader may rely on a refusal leaving nothing held, and on its cause being that of a try in one list. This project's
//! own profile.
ghost use Rattle.std.specs.Prelude.{◌≡◌, ◌≢◌, ◌<◌, ◌≤◌, ◌+◌, ◌*◌, ◌↔◌, ℕ, true, false, None, Some, IfErr, OnOk, OnErr};
ghost use Rattle.lock_core.specs.declared.range.Held.{Held};
ghost use Rattle.list_cuts.specs.Cut.{list_count, Takes};
ghost use Rattle.epoch_pools.specs.Standings.{standing_back};
ghost use Rattle.epoch_pools.specs.Passing.{HoldsToo};
ghost use Rattle.marked_list.specs.Causes.{IsSpent};
ghost use Rattle.range_rw.specs.Calls.{IsHandOf, Leaves};
ghost use Rattle.range_rw.specs.Contract.{IsLongRefusal, TakesMany, try_steps};
ghost use Rattle.range_rw.specs.Trying.{IsBare};
ghost use Rattle.range_rw.specs.Several.{HasLeft, MayLinkIn, MayGiveIn, IsLinkedIn, IsFreedIn, HoldsAlone, HoldsIn, MayHold};
ghost use Rattle.range_rw.specs.Several.{IsTryCall, IsCauseAt, IsOnce, KeepsRefusal, TakesNone};
ghost use Rattle.range_rw.specs.Looks.{MayLook, IsDue, IsHome, LooksAt, LooksAtAll, LooksOnce, MeetsMore, standing_for, IsLookAt, IsToLook};

use crate::nodes::refusal_of;
use crate::refusals::NotHeld;
use crate::release::unlink_or_mark;
use crate::trying::{leave_epoch, try_range};
use epoch_pools::{Hand, List, count_held, count_narrow, glance, pass_held, pass_list};
use list_cuts::Cut;
use lock_core::{Guard, Mode, Range};
use marked_list::sweep;
use std::sync::ledger::Ledger;
use word_rows::{Backoff, Steps};

/// How many lists there are, as the table's cut and the hand both say. Where the two differed a look would say that
/// they don't; no step is made.
#[inline(always)]
pub(crate) fn lists_of<G: Guard, L: Ledger>(
    list: &List<G>,
    hand: &mut Hand<G>,
    steps: &mut Steps<L>,
) -> u32
    requires table { hand.old.table ≡ list.now.table }
    ensures hand { hand.new ≡ hand.old }
    ensures lists { (result ≡ hand.old.part.pass.lists) × (result ≡ list_count list.now.cut) }
    ensures regions { 0 < list.now.cut.count }
    ensures counted { steps.new ≡ steps.old }
{
    let cut = list.cut();
    let _ = cut.regions();
    let lists = cut.lists();
    if lists != hand.lists() {
        glance(list, hand, steps);
        unreachable!()
    }
    lists
}

/// Leaves the epoch, if the hand is inside one, and tells how many lists there are. The hand has no node of its own in
/// the list to which it is turned.
pub(crate) fn leave_and_count<G: Guard, L: Ledger>(
    list: &List<G>,
    hand: &mut Hand<G>,
    steps: &mut Steps<L>,
) -> u32
    requires bare { IsHandOf IsBare list.now hand.old }
    ensures left { Leaves (HasLeft list.now.cut result) hand.old hand.new steps.old steps.new }
{
    leave_epoch(list, hand, steps);
    let _ = hand.view();
    let _ = hand.list();
    lists_of(list, hand, steps)
}

/// Turns the hand to a list and tries there to hold the range; a patient call comes back to the fast path where it
/// finds that list empty. Ok says whether the fast path linked the node.
#[inline(always)]
fn link_piece<G: Guard, L: Ledger>(
    list: &List<G>,
    hand: &mut Hand<G>,
    at: u32,
    range: Range,
    mode: Mode,
    patient: bool,
    steps: &mut Steps<L>,
) -> Result<bool, NotHeld>
    requires may { IsHandOf (MayLinkIn at) list.now hand.old }
    ensures link { Leaves (IsLinkedIn hand.old.table list.now.seats patient at (record { range = range; mode = mode }) result)
        hand.old hand.new steps.old steps.new }
    ensures bound { patient ≡ false → hand.new.part.trace.taken ≤ hand.old.part.trace.taken + 43 + 145 * hand.old.part.seats }
{
    hand.turn(at);
    try_range(list, hand, range, mode, patient, patient, steps)
}

/// What a call comes to that has this refusal, or none.
fn outcome_of(refusal: Option<NotHeld>) -> Result<(), NotHeld>
    ensures done { OnOk result (refusal ≡ None) }
    ensures refused { IfErr result (λ why. refusal ≡ Some why) }
{
    match refusal {
        None => Ok(()),
        Some(why) => Err(why),
    }
}

/// Turns the hand to a list, where it has no node of its own, and sweeps that list, so that a look at it finds it empty
/// where only marked nodes stood there. Err says why the end wasn't read.
#[inline(never)]
fn sweep_piece<G: Guard, L: Ledger>(
    list: &List<G>,
    hand: &mut Hand<G>,
    at: u32,
    steps: &mut Steps<L>,
) -> Result<(), NotHeld>
    requires may { IsHandOf (MayLinkIn at) list.now hand.old }
    ensures swept { Leaves (IsFreedIn at hand.old.part.pass.standing) hand.old hand.new steps.old steps.new }
    ensures cause { IfErr result (λ why. (asked : Held) → IsCauseAt hand.old.table at hand.old.part hand.new.part asked why) }
    ensures long { IfErr result (λ why. IsLongRefusal why ↔ IsSpent hand.new.part) }
    ensures bound { hand.new.part.trace.taken ≤ hand.old.part.trace.taken + 7 + 48 * hand.old.part.seats }
{
    hand.turn(at);
    let walked = sweep(list, hand, steps);
    let here = hand.list();
    outcome_of(refusal_of(here, walked))
}

/// Turns the hand to a list that holds a range which counts only through another list, and gives it back there: in one
/// step or two. `quick` says whether its node is to be unlinked as the fast path linked it. Otherwise it is marked,
/// which leaves the cause of a refusal in another list in the record.
fn give_piece<G: Guard, L: Ledger>(
    list: &List<G>,
    hand: &mut Hand<G>,
    at: u32,
    quick: bool,
    steps: &mut Steps<L>,
)
    requires may { IsHandOf (MayGiveIn at) list.now hand.old }
    ensures given { Leaves (IsFreedIn at (standing_back hand.old.part.pass.standing at)) hand.old hand.new steps.old steps.new }
    ensures kept { quick ≡ false → KeepsRefusal hand.old.table at hand.old.part hand.new.part }
    ensures bound { hand.new.part.trace.taken ≤ hand.old.part.trace.taken + 2 }
{
    hand.turn(at);
    unlink_or_mark(list, hand, quick, steps);
}

/// Whether a refused range may be unlinked as the fast path linked it: only of a patient call, which tells no cause.
fn unlinks(quick: bool, patient: bool) -> bool
    ensures patient { patient ≡ true → result ≡ quick }
    ensures once { patient ≡ false → result ≡ false }
{
    if patient { quick } else { false }
}

/// Looks at the list `at` for the range that the list `own` holds, to which the hand is turned. Whether that list was
/// empty: then a narrow range counts from this step on, and a wide one has passed all lists below `up`. One step.
#[inline(always)]
fn look<G: Guard, L: Ledger>(
    list: &List<G>,
    hand: &mut Hand<G>,
    own: u32,
    at: u32,
    up: u32,
    steps: &mut Steps<L>,
) -> bool
    requires may { IsHandOf (MayLook list.now.cut own at up) list.now hand.old }
    ensures look { Leaves (IsLookAt at result (standing_for own up)) hand.old hand.new steps.old steps.new }
{
    if own == 0 {
        pass_list(list, hand, at, up, steps)
    } else {
        count_narrow(list, hand, steps)
    }
}

/// The same where the hand holds the range in the list `at` too, whatever else is in that list.
fn look_held<G: Guard, L: Ledger>(
    list: &List<G>,
    hand: &mut Hand<G>,
    own: u32,
    at: u32,
    up: u32,
    steps: &mut Steps<L>,
)
    requires may { IsHandOf (MayLook list.now.cut own at up) list.now hand.old }
    requires too { HoldsToo hand.old.part at }
    ensures look { Leaves (IsLookAt at true (standing_for own up)) hand.old hand.new steps.old steps.new }
{
    if own == 0 {
        pass_held(list, hand, at, up, steps);
    } else {
        count_held(list, hand, steps);
    }
}

/// Links the range, which the list `own` holds, in the list `at` too, so that the look at that list counts whatever
/// else is there, and gives that node back. After a refusal no more counts than before.
#[inline(never)]
fn link_in_both<G: Guard, L: Ledger>(
    list: &List<G>,
    hand: &mut Hand<G>,
    own: u32,
    at: u32,
    up: u32,
    range: Range,
    mode: Mode,
    steps: &mut Steps<L>,
) -> Result<(), NotHeld>
    requires due { IsHandOf (IsDue list.now.cut range own at up) list.now hand.old }
    requires holds { HoldsIn own (record { range = range; mode = mode }) hand.old.part }
    ensures looks { Leaves (LooksAt hand.old.table own at (record { range = range; mode = mode }) (standing_for own up) result)
        hand.old hand.new steps.old steps.new }
    ensures bound { hand.new.part.trace.taken ≤ hand.old.part.trace.taken + 46 + 145 * hand.old.part.seats }
{
    match link_piece(list, hand, at, range, mode, false, steps) {
        Ok(quick) => {
            hand.turn(own);
            look_held(list, hand, own, at, up, steps);
            give_piece(list, hand, at, quick, steps);
            hand.turn(own);
            Ok(())
        }
        Err(why) => Err(why),
    }
}

/// Makes the range, which the list `own` holds, count at the list `at`, which a look found not empty: sweeps that list
/// and looks again, and otherwise links the range there too. After a refusal no more counts than before.
#[inline(never)]
fn look_swept<G: Guard, L: Ledger>(
    list: &List<G>,
    hand: &mut Hand<G>,
    own: u32,
    at: u32,
    up: u32,
    range: Range,
    mode: Mode,
    steps: &mut Steps<L>,
) -> Result<(), NotHeld>
    requires due { IsHandOf (IsDue list.now.cut range own at up) list.now hand.old }
    requires holds { HoldsIn own (record { range = range; mode = mode }) hand.old.part }
    ensures looks { Leaves (LooksAt hand.old.table own at (record { range = range; mode = mode }) (standing_for own up) result)
        hand.old hand.new steps.old steps.new }
    ensures bound { hand.new.part.trace.taken ≤ hand.old.part.trace.taken + 54 + 193 * hand.old.part.seats }
{
    if let Err(why) = sweep_piece(list, hand, at, steps) {
        return Err(why);
    }
    hand.turn(own);
    if look(list, hand, own, at, up, steps) {
        return Ok(());
    }
    link_in_both(list, hand, own, at, up, range, mode, steps)
}

/// Makes the range, which the list `own` holds, count at the list `at`: looks at that list, sweeps it where it isn't
/// empty and looks again, and otherwise links the range there too. After a refusal no more counts than before.
#[inline(always)]
fn look_in<G: Guard, L: Ledger>(
    list: &List<G>,
    hand: &mut Hand<G>,
    own: u32,
    at: u32,
    up: u32,
    range: Range,
    mode: Mode,
    steps: &mut Steps<L>,
) -> Result<(), NotHeld>
    requires due { IsHandOf (IsDue list.now.cut range own at up) list.now hand.old }
    requires holds { HoldsAlone own (record { range = range; mode = mode }) hand.old.part }
    ensures looks { Leaves (LooksAt hand.old.table own at (record { range = range; mode = mode }) (standing_for own up) result)
        hand.old hand.new steps.old steps.new }
    ensures once { LooksOnce at hand.old.part hand.new.part }
    ensures more { OnErr result (MeetsMore at hand.old.part hand.new.part) }
    ensures bound { hand.new.part.trace.taken ≤ hand.old.part.trace.taken + 55 + 193 * hand.old.part.seats }
{
    if look(list, hand, own, at, up, steps) {
        return Ok(());
    }
    look_swept(list, hand, own, at, up, range, mode, steps)
}

/// The first list from `from` on that the range takes, or the number of lists where it takes none from there on.
pub(crate) fn next_taken(cut: Cut, range: Range, from: u32) -> u32
    requires there { from ≤ list_count cut }
    ensures from { from ≤ result }
    ensures most { result ≤ list_count cut }
    ensures taken { result < list_count cut → Takes cut range result }
    ensures first { TakesNone cut range from result }
{
    let lists = cut.lists();
    let mut at = from;
    'all: while at < lists {
        if cut.takes(range, at) {
            return at;
        }
        at += 1;
    }
    lists
}

/// Has the wide range, which list 0 holds, pass each list that it takes, in rising order. It counts with the last.
/// Where a list refuses it, it keeps its node in list 0, waits without yielding the processor, since a static library
/// can't, and tries that list again, `looks` times in all. Meanwhile it counts nowhere, and what it has passed stays
/// passed. There are that many lists.
fn pass_all<G: Guard, L: Ledger>(
    list: &List<G>,
    hand: &mut Hand<G>,
    lists: u32,
    range: Range,
    mode: Mode,
    looks: u32,
    steps: &mut Steps<L>,
) -> Result<(), NotHeld>
    requires due { IsHandOf (IsToLook list.now.cut lists 0 (record { range = range; mode = mode })) list.now hand.old }
    ensures looks { Leaves (LooksAtAll hand.old.table list.now.cut 0 looks (record { range = range; mode = mode }) result)
        hand.old hand.new steps.old steps.new }
{
    let cut = list.cut();
    let mut at = next_taken(cut, range, 1);
    let mut left = looks;
    let mut backoff = Backoff::new();
    'all: while at < lists {
        let up = next_taken(cut, range, at + 1);
        match look_in(list, hand, 0, at, up, range, mode, steps) {
            Ok(()) => at = up,
            Err(why) => {
                if left == 0 {
                    return Err(why);
                }
                left -= 1;
                hand.turn(0);
                backoff.pause();
            }
        }
    }
    Ok(())
}

/// Makes the range count, which the list `own` holds: a narrow one looks at list 0, and a wide one, which list 0 holds,
/// at each list that it takes, with so many further looks. After a refusal it doesn't count. There are that many lists.
#[inline(always)]
fn look_in_all<G: Guard, L: Ledger>(
    list: &List<G>,
    hand: &mut Hand<G>,
    own: u32,
    lists: u32,
    range: Range,
    mode: Mode,
    looks: u32,
    steps: &mut Steps<L>,
) -> Result<(), NotHeld>
    requires due { IsHandOf (IsToLook list.now.cut lists own (record { range = range; mode = mode })) list.now hand.old }
    ensures looks { Leaves (LooksAtAll hand.old.table list.now.cut own looks (record { range = range; mode = mode }) result)
        hand.old hand.new steps.old steps.new }
{
    if own == 0 {
        pass_all(list, hand, lists, range, mode, looks, steps)
    } else {
        look_in(list, hand, own, 0, 0, range, mode, steps)
    }
}

/// The list that holds a range where there are several, which are so many: the one that it takes alone, or list 0 where
/// it takes more.
#[inline(always)]
fn home_of<G: Guard>(list: &List<G>, lists: u32, range: Range) -> u32
    requires many { lists ≡ list_count list.now.cut }
    requires regions { 0 < list.now.cut.count }
    requires several { lists ≢ 1 }
    ensures { IsHome list.now.cut range lists result }
{
    let _ = lists;
    match list.cut().only(range) {
        Some(at) => at,
        None => 0,
    }
}

/// Tries to hold the range in the list `own`, where there are several: links it there, and makes it count, a wide one
/// with so many further looks. A narrow one that is refused in list 0 gives its node back and waits nowhere. The seat
/// holds nothing. Ok says whether the fast path linked the node there. After a refusal the seat holds nothing. There
/// are that many lists.
fn hold_in<G: Guard, L: Ledger>(
    list: &List<G>,
    hand: &mut Hand<G>,
    own: u32,
    lists: u32,
    range: Range,
    mode: Mode,
    patient: bool,
    looks: u32,
    steps: &mut Steps<L>,
) -> Result<bool, NotHeld>
    requires home { IsHome list.now.cut range lists own }
    requires free { IsHandOf (MayHold list.now.cut lists) list.now hand.old }
    ensures tried { Leaves (IsTryCall hand.old.table list.now.cut list.now.seats looks patient (record { range = range; mode = mode }) result)
        hand.old hand.new steps.old steps.new }
    ensures each { IsOnce patient looks → (k : ℕ) → TakesMany list.now.cut range k
        → hand.new.part.trace.taken ≤ hand.old.part.trace.taken + 45 + 145 * hand.old.part.seats + (55 + 193 * hand.old.part.seats) * k }
{
    let quick = match link_piece(list, hand, own, range, mode, patient, steps) {
        Ok(quick) => quick,
        Err(why) => return Err(why),
    };
    match look_in_all(list, hand, own, lists, range, mode, looks, steps) {
        Ok(()) => Ok(quick),
        Err(why) => {
            give_piece(list, hand, own, unlinks(quick, patient), steps);
            Err(why)
        }
    }
}

/// Tries to hold the range in a table of any number of lists. The seat holds nothing. `patient` says whether a reader
/// looks again at a writer's node, and a wide range has so many further looks. Ok says whether the fast path linked the
/// node by which the range counts, in the list to which the hand is turned then. After a refusal the seat holds
/// nothing. There are that many lists.
#[inline(always)]
pub(crate) fn try_hold<G: Guard, L: Ledger>(
    list: &List<G>,
    hand: &mut Hand<G>,
    lists: u32,
    range: Range,
    mode: Mode,
    patient: bool,
    looks: u32,
    steps: &mut Steps<L>,
) -> Result<bool, NotHeld>
    requires free { IsHandOf (MayHold list.now.cut lists) list.now hand.old }
    ensures tried { Leaves (IsTryCall hand.old.table list.now.cut list.now.seats looks patient (record { range = range; mode = mode }) result)
        hand.old hand.new steps.old steps.new }
    ensures each { IsOnce patient looks → (k : ℕ) → TakesMany list.now.cut range k
        → hand.new.part.trace.taken + 1 ≤ hand.old.part.trace.taken + try_steps hand.old.part.seats k }
{
    let _ = hand.list();
    let _ = hand.seats();
    let _ = range.lo();
    if lists == 1 {
        return try_range(list, hand, range, mode, true, patient, steps);
    }
    let own = home_of(list, lists, range);
    hold_in(list, hand, own, lists, range, mode, patient, looks, steps)
}
