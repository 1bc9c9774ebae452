//! The plan of a call that changes the address space: its reply and the splice that it makes of the rows, from rows
//! that are loaded where it needs them, before any word is stored. It is what `PlainSpace::step` of `space_model`
//! answers on the areas of these rows, after mmap(2) and the calls like it. A reader may rely on that, and on no memory
//! being taken.
ghost use Rattle.std.specs.Prelude.{◌≡◌, ◌≤◌, ◌<◌, ◌+◌, ◌*◌, ◌⊎◌, [], length, vec_capacity};
ghost use Rattle.page_types.specs.declared.TheConstants.{ROWS, SPARE};
ghost use Rattle.page_types.specs.declared.calls.Reply.TheVariants.{Refused};
ghost use Rattle.page_types.specs.declared.calls.Why.{Why};
ghost use Rattle.page_types.specs.Named.{IsNamedCall};
ghost use Rattle.space_model.specs.Areas.{kind_at};
ghost use Rattle.space_model.specs.Effect.{AreRising};
ghost use Rattle.space_model.specs.Cutting.{last_end};
ghost use Rattle.space_model.specs.Judges.{IsNamedChange, patches_of};
ghost use Rattle.row_plans.specs.RowLists.{areas_from};
ghost use Rattle.row_plans.specs.Plans.{spliced, IsPlan, ChangesPages, LeavesRows};
ghost use Rattle.row_plans.specs.Planning.{IsMade, IsUnchanged};
ghost use Rattle.row_plans.specs.Loads.{TakesLoads, change_loads, fit_loads};

use crate::places::RowPages;
use crate::planning::{Cut, plan_change};
use crate::rows::Rows;
use page_types::{Call, ROWS, Reply, plain};
use space_model::{Change, Judged, full_reply, judge};

/// What a call answers, how many rows the address space has after it, and which rows go.
#[derive(Clone, Copy, Debug, PartialEq, Eq)]
pub struct Planned<P> {
    /// The reply.
    pub reply: Reply,
    /// The number of rows that the call leaves: areas, and gaps between 0 and `LIMIT`.
    pub rows: u32,
    /// The rows that go. None does where the call is refused.
    pub cut: Cut<P>,
}

/// The plan of a call that changes nothing: no row goes, and none comes.
fn unchanged<R: Rows>(old: &R, reply: Reply, new: &mut Vec<u64>) -> Planned<R::Place>
    ensures reply { result.reply ≡ reply }
    ensures gone { result.cut.gone ≡ 0 }
    ensures none { new.new.items ≡ [] }
    ensures few { length new.new.items ≡ 0 }
    ensures same { (hand : R.Hand) → R.may_load old.now hand → IsUnchanged (R.words old.now hand) (R.number old.now hand) result new.new.items }
    ensures room { vec_capacity new.old ≤ vec_capacity new.new }
{
    new.clear();
    Planned {
        reply,
        rows: old.count(),
        cut: Cut {
            at: old.first(),
            gone: 0,
        },
    }
}

/// The plan of a change, unless the result would have more than `ROWS` rows.
fn changed<R: Rows>(
    old: &R,
    hand: &mut R::Hand,
    change: Change,
    new: &mut Vec<u64>,
) -> Planned<R::Place>
    requires may { R.may_load old.now hand.old }
    requires named { IsNamedChange change }
    requires rising { AreRising 0 (patches_of change) }
    requires room { length (R.words old.now hand.old) + 2 * length (patches_of change) ≤ vec_capacity new.old }
    ensures made { IsMade change result.reply result.rows (spliced (R.number old.now hand.old) (R.words old.now hand.old) result.cut new.new.items)
        (areas_from (R.words old.now hand.old)) }
    ensures at { R.number old.now hand.old result.cut.at < length (R.words old.now hand.old) }
    ensures there { R.number old.now hand.old result.cut.at + result.cut.gone ≤ length (R.words old.now hand.old) }
    ensures few { length new.new.items ≤ result.cut.gone + 2 * length (patches_of change) }
    ensures changes { LeavesRows result.cut new.new.items ⊎ (result.reply ≡ change.reply) }
    ensures room { vec_capacity new.old ≤ vec_capacity new.new }
    ensures loaded { R.loaded old.now hand.old hand.new }
    ensures steps { R.steps old.now hand.new ≤ R.steps old.now hand.old
        + change_loads (R.words old.now hand.old) change.first.lo (last_end 0 (patches_of change)) }
{
    let count = old.count();
    let cut = plan_change(old, hand, change, new);
    let rows = count - cut.gone + new.len() as u32;
    if rows as usize > ROWS {
        return unchanged(old, full_reply(change.full, rows), new);
    }
    Planned {
        reply: change.reply,
        rows,
        cut,
    }
}

/// The plan of a call on rows that are loaded: its reply, and the splice that it makes of the rows. Those that come go
/// into `new`, at most `SPARE` more than go; it gives which go. Of a refused call none goes and none comes, nor of one
/// that has a reply alone; one that gives pages the kind that they have may have rows go, and the same rows come. A
/// call whose pages are fixed loads the rows of these pages, one on each side, and as many more as finding a row
/// takes; one that looks for a place loads the last row of its window, and whoever keeps the rows says what it takes to
/// go down from there to one with as many free pages. It takes no memory: `new` has room for `SPARE` rows more than
/// there are.
pub fn plan_rows<R: Rows>(
    old: &R,
    hand: &mut R::Hand,
    call: &Call,
    new: &mut Vec<u64>,
) -> Planned<R::Place>
    requires may { R.may_load old.now hand.old }
    requires named { IsNamedCall call.now }
    requires room { length (R.words old.now hand.old) + SPARE ≤ vec_capacity new.old }
    ensures plan { IsPlan call.now result.reply result.rows (spliced (R.number old.now hand.old) (R.words old.now hand.old) result.cut new.new.items)
        (areas_from (R.words old.now hand.old)) }
    ensures at { R.number old.now hand.old result.cut.at < length (R.words old.now hand.old) }
    ensures there { R.number old.now hand.old result.cut.at + result.cut.gone ≤ length (R.words old.now hand.old) }
    ensures few { length new.new.items ≤ result.cut.gone + SPARE }
    ensures changes { LeavesRows result.cut new.new.items ⊎ ChangesPages (areas_from (R.words old.now hand.old)) call.now result.reply }
    ensures refused { (why : Why) → result.reply ≡ Refused why → LeavesRows result.cut new.new.items }
    ensures room { vec_capacity new.old ≤ vec_capacity new.new }
    ensures loaded { R.loaded old.now hand.old hand.new }
    ensures loads { TakesLoads (R.words old.now hand.old) (fit_loads (R.gap_loads old.now hand.old)) call.now (R.steps old.now hand.old)
        (R.steps old.now hand.new) }
{
    if let Some(reply) = plain(call) {
        return unchanged(old, reply, new);
    }
    let pages = RowPages { rows: old };
    match judge(&pages, hand, call) {
        Judged::Refused(why) => unchanged(old, Reply::Refused(why), new),
        Judged::Keeps(reply) => unchanged(old, reply, new),
        Judged::Changes(change) => changed(old, hand, change, new),
    }
}
