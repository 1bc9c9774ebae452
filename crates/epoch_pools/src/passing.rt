//! The looks behind a link, where a table has several lists. A narrow range counts from the look at list 0 on that
//! finds it empty; a wide one has passed a list from such a look at that list on, and counts with the last. Each look
//! is one load of a head, and turns the hand to no other list. A reader may rely on nothing counting that conflicts
//! with a range that counts (`keeps_apart`): first the link and then the look, on both sides, is all that it takes.
ghost use Rattle.std.specs.Prelude.{◌≡◌, ◌+◌, ◌<◌, ◌||◌, ◌==◌, true, false};
ghost use Rattle.list_cuts.specs.Cut.{list_count};
ghost use Rattle.epoch_pools.specs.declared.views.Standing.TheVariants.{Narrow, Wide};
ghost use Rattle.epoch_pools.specs.Passing.{MayCount, MayPass, HoldsToo, IsLook, after_look, after_look_at, standing_of, held_too};

use crate::hand::Hand;
use crate::list::{List, lock_word_count};
use crate::plays::{Look, Looks};
use crate::token::Token;
use lock_core::Guard;
use std::marker::Brand;
use std::sync::ledger::Ledger;
use word_rows::Steps;

/// Which look is made: one by which nothing comes to count; that of a narrow range, which counts then; or that of a
/// wide one, which has passed all lists below `up` then. `held` says that the seat holds the range in that list too.
#[derive(Clone, Copy)]
pub enum LookKind {
    Plain,
    Count { held: bool },
    Pass { up: u32, held: bool },
}

impl<G: Guard> List<G> {
    /// Loads the head of a list, as the look that is picked. It returns what the head was. The kind is there for the
    /// pick alone.
    #[inline(always)]
    fn look_at<D: Look>(&self, token: &mut Token<G>, list: u32, kind: LookKind) -> u64
        requires table { token.old.table ≡ self.now.table }
        requires cut { D.cut ≡ self.now.cut }
        requires lists { (D.lists ≡ token.old.part.pass.lists) × (D.list ≡ token.old.part.pass.list) }
        requires there { list < token.old.part.pass.lists }
        requires at { D.at ≡ list }
        requires may { IsLook self.now.cut token.old.part list D.standing D.too }
        ensures table { token.new.table ≡ token.old.table }
        ensures part { token.new.part ≡ after_look_at list (D.too || result == 0) D.standing token.old.part }
        ensures lists { token.old.part.pass.lists ≡ list_count self.now.cut }
    {
        let _ = kind;
        let head = (list * lock_word_count(token.seats)) as usize;
        self.table.shared.load::<Looks<G, D>>(&mut token.seat, head)
    }
}

/// Looks at a list with a hand. It returns what the head was. One step.
#[inline(always)]
fn look_from<G: Guard, L: Ledger>(
    list: &List<G>,
    hand: &mut Hand<G>,
    at: u32,
    kind: LookKind,
    steps: &mut Steps<L>,
) -> u64
    requires table { hand.old.table ≡ list.now.table }
    requires there { at < hand.old.part.pass.lists }
    requires may { IsLook list.now.cut hand.old.part at (standing_of kind hand.old.part) (held_too kind) }
    ensures table { hand.new.table ≡ hand.old.table }
    ensures part { hand.new.part ≡ after_look_at at (held_too kind || result == 0) (standing_of kind hand.old.part) hand.old.part }
    ensures lists { hand.old.part.pass.lists ≡ list_count list.now.cut }
    ensures counted { steps.new ≡ steps.old + 1 }
{
    let found = list.look_at::<Brand>(&mut hand.token, at, kind);
    steps.tick();
    found
}

/// Looks at list 0, and nothing comes to count by it, whatever it finds. It shows that the hand has as many lists as
/// the table's cut. One step.
pub fn glance<G: Guard, L: Ledger>(list: &List<G>, hand: &mut Hand<G>, steps: &mut Steps<L>)
    requires table { hand.old.table ≡ list.now.table }
    ensures table { hand.new.table ≡ hand.old.table }
    ensures part { hand.new.part ≡ after_look hand.old.part hand.old.part.pass.standing }
    ensures lists { hand.old.part.pass.lists ≡ list_count list.now.cut }
    ensures counted { steps.new ≡ steps.old + 1 }
{
    let _lists = hand.lists();
    look_from(list, hand, 0, LookKind::Plain, steps);
}

/// Looks at list 0 for the narrow range that the hand's list holds. Whether list 0 was empty: then the range counts
/// from this step on; otherwise the record has this look. One step.
#[inline(always)]
pub fn count_narrow<G: Guard, L: Ledger>(
    list: &List<G>,
    hand: &mut Hand<G>,
    steps: &mut Steps<L>,
) -> bool
    requires table { hand.old.table ≡ list.now.table }
    requires may { MayCount list.now.cut hand.old.part }
    ensures table { hand.new.table ≡ hand.old.table }
    ensures part { hand.new.part ≡ after_look_at 0 result (Narrow hand.old.part.pass.list) hand.old.part }
    ensures counted { steps.new ≡ steps.old + 1 }
{
    let found = look_from(list, hand, 0, LookKind::Count { held: false }, steps);
    found == 0
}

/// The same where the hand holds the range in list 0 too: it counts from this step on, whatever else is in that list.
pub fn count_held<G: Guard, L: Ledger>(list: &List<G>, hand: &mut Hand<G>, steps: &mut Steps<L>)
    requires table { hand.old.table ≡ list.now.table }
    requires may { MayCount list.now.cut hand.old.part }
    requires too { HoldsToo hand.old.part 0 }
    ensures table { hand.new.table ≡ hand.old.table }
    ensures part { hand.new.part ≡ after_look hand.old.part (Narrow hand.old.part.pass.list) }
    ensures counted { steps.new ≡ steps.old + 1 }
{
    look_from(list, hand, 0, LookKind::Count { held: true }, steps);
}

/// Looks at a list for the wide range that list 0 holds, to which the hand is turned; below `up` no other list is still
/// to be passed. Whether that list was empty: then all below `up` are passed from this step on, and the range counts
/// where these are all lists; otherwise the record has this look. One step.
#[inline(always)]
pub fn pass_list<G: Guard, L: Ledger>(
    list: &List<G>,
    hand: &mut Hand<G>,
    at: u32,
    up: u32,
    steps: &mut Steps<L>,
) -> bool
    requires table { hand.old.table ≡ list.now.table }
    requires may { MayPass list.now.cut hand.old.part at up }
    ensures table { hand.new.table ≡ hand.old.table }
    ensures part { hand.new.part ≡ after_look_at at result (Wide up) hand.old.part }
    ensures counted { steps.new ≡ steps.old + 1 }
{
    let found = look_from(list, hand, at, LookKind::Pass { up, held: false }, steps);
    found == 0
}

/// The same where the hand holds the range in that list too.
pub fn pass_held<G: Guard, L: Ledger>(
    list: &List<G>,
    hand: &mut Hand<G>,
    at: u32,
    up: u32,
    steps: &mut Steps<L>,
)
    requires table { hand.old.table ≡ list.now.table }
    requires may { MayPass list.now.cut hand.old.part at up }
    requires too { HoldsToo hand.old.part at }
    ensures table { hand.new.table ≡ hand.old.table }
    ensures part { hand.new.part ≡ after_look hand.old.part (Wide up) }
    ensures counted { steps.new ≡ steps.old + 1 }
{
    look_from(list, hand, at, LookKind::Pass { up, held: true }, steps);
}
