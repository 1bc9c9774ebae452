//! A Remap, judged on pages: pages of one kind become fewer where they are, or more where they are or elsewhere, as
//! mremap(2) has it; which places are tried, and in which order, is this project's own. A reader may rely on `Remaps`
//! in `specs/`: what is free is so before the call, so a move goes to pages apart from the old ones, and both are
//! changed at once.

ghost use Rattle.std.specs.Prelude.{ℕ, Option, None, Some, [], ◌∷◌, ◌≡◌, ◌+◌, ◌*◌, ◌<◌, ◌≤◌, ◌^◌, ◌↔◌, ◌==◌, ◌&&◌, not, IsTrue, MatchOption};
ghost use Rattle.page_types.specs.declared.TheConstants.{LIMIT, LOW};
ghost use Rattle.page_types.specs.declared.calls.Call.TheVariants.{Remap};
ghost use Rattle.page_types.specs.declared.calls.Reply.TheVariants.{At};
ghost use Rattle.page_types.specs.Pages.{page_of, page_count, end_page, is_aligned};
ghost use Rattle.page_types.specs.PlainReply.{remap_reply};
ghost use Rattle.space_model.specs.declared.paint.Paint.TheVariants.{Gives};
ghost use Rattle.space_model.specs.declared.paint.Patch.{Patch};
ghost use Rattle.space_model.specs.Answers.{bars, in_order};
ghost use Rattle.space_model.specs.Effect.{patch};
ghost use Rattle.space_model.specs.Judges.{IsJudged};
ghost use Rattle.space_model.specs.Looking.{TakesLooks, hint_looks, longer_looks};
ghost use Rattle.space_model.specs.Places.{FitsAt, HasNoPlace, StartsAt, remap_places};
ghost use Rattle.space_model.specs.Sorts.{IsClear};

use crate::heap::has_room;
use crate::judged::{Change, Judged};
use crate::judging::{Pages, changed, fits_at, lowest};
use crate::paint::{Paint, Patch};
use crate::sorts::Sort;
use page_types::{Kind, LIMIT, LOW, PAGE, Reply, Short, Why, end_page, page_count};

/// Whether pages that are to be so many may go to the hint, and fit there.
fn goes_to_hint<P: Pages>(
    pages: &P,
    hand: &mut P::Hand,
    count: u64,
    may_move: bool,
    hint: u64,
) -> bool
    requires may { P.may_look pages.now hand.old }
    requires few { count < 2 ^ 53 }
    ensures fits { IsTrue result
        ↔ (IsTrue (may_move && not (hint == 0) && is_aligned hint) × FitsAt (P.kinds pages.now hand.old) LIMIT count (page_of hint)) }
    ensures looked { P.looked pages.now hand.old hand.new }
    ensures looks { P.looks pages.now hand.new ≤ P.looks pages.now hand.old
        + hint_looks (P.reach pages.now hand.old) count may_move (page_of hint) }
{
    if !may_move || hint == 0 || hint % PAGE != 0 {
        return false;
    }
    fits_at(pages, hand, LIMIT, count, hint / PAGE)
}

/// Where pages from `lo` up to `end` are put that are to be so many more: the first place that applies.
fn remap_place<P: Pages>(
    pages: &P,
    hand: &mut P::Hand,
    lo: u64,
    end: u64,
    count: u64,
    may_move: bool,
    hint: u64,
) -> Option<u64>
    requires may { P.may_look pages.now hand.old }
    requires some { lo < end }
    requires limit { end ≤ LIMIT }
    requires longer { end < lo + count }
    requires few { count < 2 ^ 53 }
    ensures place { MatchOption result
        (HasNoPlace (P.kinds pages.now hand.old) count (remap_places lo end may_move hint))
        (StartsAt (P.kinds pages.now hand.old) count (remap_places lo end may_move hint)) }
    ensures limit { MatchOption result (Unit {0}) (λ start. start + count ≤ LIMIT) }
    ensures looked { P.looked pages.now hand.old hand.new }
    ensures looks { P.looks pages.now hand.new ≤ P.looks pages.now hand.old
        + longer_looks (P.reach pages.now hand.old) (P.fit_looks pages.now hand.old) lo end count may_move (page_of hint) }
{
    if goes_to_hint(pages, hand, count, may_move, hint) {
        return Some(hint / PAGE);
    }
    if has_room(pages, hand, end, lo + count) {
        return Some(lo);
    }
    if may_move {
        return pages.highest_fit(hand, LOW, count);
    }
    None
}

/// Two patches in the order of their pages.
fn in_order(one: Patch, other: Patch) -> (Patch, Patch)
    ensures { in_order one other ≡ result.0 ∷ result.1 ∷ [] }
{
    if one.lo < other.lo {
        (one, other)
    } else {
        (other, one)
    }
}

/// The change of a move: the old pages go, and those of the place get the kind.
fn moved(lo: u64, end: u64, start: u64, count: u64, kind: Option<Kind>) -> Judged
    requires { start + count ≤ LIMIT }
    ensures { (first second : Patch)
        × (in_order (patch lo end (Gives None)) (patch start (start + count) (Gives kind)) ≡ first ∷ second ∷ [])
        × (result ≡ Judged.Changes (record { first = first; second = Some second; reply = At (start * 4096); full = None })) }
{
    let old = Patch {
        lo,
        hi: end,
        paint: Paint::Gives(None),
    };
    let new = Patch {
        lo: start,
        hi: start + count,
        paint: Paint::Gives(kind),
    };
    let (first, second) = in_order(old, new);
    Judged::Changes(Change {
        first,
        second: Some(second),
        reply: Reply::At(start * PAGE),
        full: None,
    })
}

/// A Remap that makes its pages more, all of which have this kind.
fn judge_longer<P: Pages>(
    pages: &P,
    hand: &mut P::Hand,
    addr: u64,
    old_len: u64,
    new_len: u64,
    may_move: bool,
    hint: u64,
    kind: Option<Kind>,
) -> Judged
    requires may { P.may_look pages.now hand.old }
    requires undecided { remap_reply addr old_len new_len ≡ None }
    requires kind { kind ≡ P.kinds pages.now hand.old (page_of addr) }
    requires longer { page_count old_len < page_count new_len }
    requires clear { IsClear (P.kinds pages.now hand.old) (bars (P.kinds pages.now hand.old) (Remap addr old_len new_len may_move hint)) }
    ensures judged { IsJudged (P.kinds pages.now hand.old) (Remap addr old_len new_len may_move hint) result }
    ensures looked { P.looked pages.now hand.old hand.new }
    ensures looks { P.looks pages.now hand.new ≤ P.looks pages.now hand.old
        + longer_looks (P.reach pages.now hand.old) (P.fit_looks pages.now hand.old) (page_of addr) (end_page addr old_len) (page_count new_len)
        may_move (page_of hint) }
{
    let lo = addr / PAGE;
    let end = end_page(addr, old_len);
    let count = page_count(new_len);
    match remap_place(pages, hand, lo, end, count, may_move, hint) {
        Some(start) => {
            if start == lo {
                changed(lo, lo + count, Paint::Gives(kind), Reply::At(addr))
            } else {
                moved(lo, end, start, count, kind)
            }
        }
        None => Judged::Refused(Why::Enomem(Short::NoGap(count))),
    }
}

/// A Remap.
pub(crate) fn judge_remap<P: Pages>(
    pages: &P,
    hand: &mut P::Hand,
    addr: u64,
    old_len: u64,
    new_len: u64,
    may_move: bool,
    hint: u64,
) -> Judged
    requires may { P.may_look pages.now hand.old }
    requires undecided { remap_reply addr old_len new_len ≡ None }
    ensures judged { IsJudged (P.kinds pages.now hand.old) (Remap addr old_len new_len may_move hint) result }
    ensures looked { P.looked pages.now hand.old hand.new }
    ensures looks { TakesLooks (P.kinds pages.now hand.old) (P.reach pages.now hand.old) (P.fit_looks pages.now hand.old)
        (Remap addr old_len new_len may_move hint) (P.looks pages.now hand.old) (P.looks pages.now hand.new) }
{
    let lo = addr / PAGE;
    let end = end_page(addr, old_len);
    let kind = pages.kind_of(hand, lo);
    if let Some(page) = lowest(pages, hand, Sort::Unlike(kind), lo, end) {
        return Judged::Refused(Why::Efault(page));
    }
    if let Some(page) = lowest(pages, hand, Sort::Sealed, lo, end) {
        return Judged::Refused(Why::Eperm(page));
    }
    let count = page_count(new_len);
    if count <= page_count(old_len) {
        return changed(lo + count, end, Paint::Gives(None), Reply::At(addr));
    }
    judge_longer(pages, hand, addr, old_len, new_len, may_move, hint, kind)
}
