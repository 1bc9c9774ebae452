//! The address space of one thread, with room reserved for whatever calls make of it: none of its calls takes memory,
//! and what one costs doesn't grow with the space, as long as it names few pages. Callers see the list of areas alone,
//! as of a `PlainSpace`, from which it is made; `check` of `history_check` judges logs by it.

ghost use Rattle.std.specs.Prelude.{◌≡◌, ◌↔◌, ◌⊎◌, ◌<◌, None, IfOk, IsTrue, MatchOption};
ghost use Rattle.page_types.specs.Named.{IsNamedCall, IsNamedReply};
ghost use Rattle.page_types.specs.PlainReply.{plain_reply, protect_reply};
ghost use Rattle.space_model.specs.declared.areas.Area.{Area as AreaOf};
ghost use Rattle.space_model.specs.Areas.{IsAreaList, HasNamedKinds, kind_at};
ghost use Rattle.space_model.specs.Answers.{Answers};
ghost use Rattle.space_model.specs.Effect.{protected_kind};
ghost use Rattle.space_model.specs.Starts.{KeepsRows};
ghost use Rattle.space_model.specs.Blocks.{areas_of, IsStored};
ghost use Rattle.space_model.specs.Held.{HoldsSomeArea, LiesIn, kind_before, IsSimple, FitsByState, FitsUnder};

use crate::areas::Area;
use crate::blocks::{Block, end_of, first_above, gather, kind_of};
use crate::build::repainted;
use crate::calls::judge;
use crate::entries::Under;
use crate::fits::highest_fit;
use crate::held::keeps_rows;
use crate::judged::Judged;
use crate::judging::Pages;
use crate::paint::Paint;
use crate::sorts::Sort;
use crate::stored::Stored;
use page_types::{Call, Kind, PAGE, Prot, Reply, Span, plain};
use std::marker::Model;

/// The address space of one thread with its room reserved; contracts see it as the list of its areas.
#[derive(Drop, Debug)]
pub struct ReservedSpace {
    pub(crate) stored: Stored,
}

impl Model for ReservedSpace {
    ghost use Rattle.std.specs.Prelude.{List};
    ghost use Rattle.space_model.specs.declared.areas.Area.{Area};
    ghost use Rattle.space_model.specs.Blocks.{areas_of, IsStored};

    ghost Value = { List Area };

    ghost view = { λ s. areas_of s.stored.blocks.items };

    ghost invariant = { λ s. IsStored s.stored };
}

/// The area that holds all pages from `lo` up to `hi`.
fn area_around(blocks: &[Block], lo: u64, hi: u64) -> Option<Area>
    requires in_order { IsAreaList (areas_of blocks.now) }
    requires some { lo < hi }
    ensures { MatchOption result ((area : AreaOf) → ¬ LiesIn (areas_of blocks.now) area lo hi) (λ area. LiesIn (areas_of blocks.now) area lo hi) }
{
    match first_above(blocks, lo) {
        Some(area) => {
            if area.lo <= lo && hi <= area.hi {
                Some(area)
            } else {
                None
            }
        }
        None => None,
    }
}

/// The kind of the page before `page`, or None before page 0.
fn kind_before(blocks: &[Block], page: u64) -> Option<Kind>
    requires { IsAreaList (areas_of blocks.now) }
    ensures { result ≡ kind_before (areas_of blocks.now) page }
{
    if page == 0 {
        None
    } else {
        kind_of(blocks, page - 1)
    }
}

/// Whether a Protect of a span within one area finds it sealed, or keeps the number of rows.
fn is_simple_in(blocks: &[Block], area: Area, span: Span, prot: Prot) -> bool
    requires { IsAreaList (areas_of blocks.now) }
    ensures { IsTrue result ↔ (IsTrue area.kind.sealed
        ⊎ KeepsRows (kind_before (areas_of blocks.now) span.lo) area.kind (protected_kind prot area.kind) (kind_at (areas_of blocks.now) span.hi)) }
{
    if area.kind.sealed {
        return true;
    }
    let before = kind_before(blocks, span.lo);
    let after = kind_of(blocks, span.hi);
    keeps_rows(
        before,
        area.kind,
        repainted(area.kind, Some(Paint::Protects(prot))),
        after,
    )
}

/// What a Protect that its arguments don't decide has to hold.
fn protect_under(blocks: &[Block], addr: u64, len: u64, prot: Prot) -> Under
    requires in_order { IsAreaList (areas_of blocks.now) }
    requires undecided { protect_reply addr len ≡ None }
    ensures fits { FitsByState (areas_of blocks.now) (Call.Protect addr len prot) result }
    ensures simple { HoldsSomeArea result ↔ IsSimple (areas_of blocks.now) (Call.Protect addr len prot) }
{
    let span = Span::of_valid(addr, len);
    match area_around(blocks, span.lo, span.hi) {
        Some(area) => {
            if is_simple_in(blocks, area, span, prot) {
                Under::Area(area.widened())
            } else {
                Under::Whole
            }
        }
        None => Under::Whole,
    }
}

impl ReservedSpace {
    /// The areas, in order. It takes no memory.
    pub fn into_areas(self) -> Vec<Area>
        ensures list { result.items ≡ self }
        ensures in_order { IsAreaList self }
    {
        let Stored { blocks, taken, .. } = self.stored;
        let mut areas = taken;
        gather(&mut areas, blocks.as_slice());
        areas
    }

    /// Makes one call as `PlainSpace::step_under` does: gives its reply, changes the space where that isn't a refusal,
    /// and says what has to be held when the call draws its number. It takes no memory.
    pub fn step_under(&mut self, call: &Call) -> (Reply, Under)
        requires { IsNamedCall call.now }
        ensures answer { Answers self.old call.now result.0 self.new }
        ensures named { IsNamedReply result.0 }
        ensures fits { FitsUnder self.old call.now result.1 }
        ensures simple { HoldsSomeArea result.1 ↔ ((plain_reply call.now ≡ None) × IsSimple self.old call.now) }
        ensures in_order { IsAreaList self.old }
    {
        let _ = &self.stored;
        match plain(call) {
            Some(reply) => (reply, Under::Nothing),
            None => {
                let under = self.undecided_under(call);
                (self.undecided_step(call), under)
            }
        }
    }

    /// What has to be held for a call that its arguments don't decide.
    fn undecided_under(&self, call: &Call) -> Under
        requires { plain_reply call.now ≡ None }
        ensures fits { FitsByState self.now call.now result }
        ensures simple { HoldsSomeArea result ↔ IsSimple self.now call.now }
    {
        match *call {
            Call::Map { .. }
            | Call::Unmap { .. }
            | Call::Seal { .. }
            | Call::Brk { .. }
            | Call::Remap { .. } => Under::Whole,
            Call::Protect { addr, len, prot } => protect_under(
                self.stored.blocks.as_slice(),
                addr,
                len,
                prot,
            ),
            Call::Fault { addr, .. } => Under::Reader(Span::of_page(addr / PAGE)),
        }
    }

    /// Makes a call that its arguments don't decide.
    fn undecided_step(&mut self, call: &Call) -> Reply
        requires named { IsNamedCall call.now }
        requires undecided { plain_reply call.now ≡ None }
        ensures answer { Answers self.old call.now result self.new }
        ensures named { IsNamedReply result }
    {
        let _ = &self.stored;
        match judge(&*self, &mut (), call) {
            Judged::Refused(why) => Reply::Refused(why),
            Judged::Keeps(reply) => reply,
            Judged::Changes(change) => self.stored.change(change),
        }
    }
}

impl Pages for ReservedSpace {
    ghost use Rattle.std.specs.Prelude.{refl};
    ghost use Rattle.space_model.specs.Looking.{none_at_most};

    type Hand = ();

    ghost may_look = { λ _ _. Unit {0} };

    ghost kinds = { λ areas _. kind_at areas };

    ghost looked = { λ _ _ _. Unit {0} };

    ghost no_look = { λ _ _. tt };

    ghost looks_on = { λ _ _ _ _ _ _. tt };

    ghost same_kinds = { λ _ _ _ _ _. (tt, refl) };

    ghost looks = { λ _ _. 0 };

    ghost reach = { λ _ _ _ _. 0 };

    ghost same_reach = { λ _ _ _ _ _. refl };

    ghost reach_within = { λ _ _ _ _ _ _ _ _. none_at_most };

    ghost fit_looks = { λ _ _. 0 };

    ghost same_fit = { λ _ _ _ _ _. refl };

    fn kind_of(&self, _hand: &mut (), page: u64) -> Option<Kind> {
        kind_of(self.stored.blocks.as_slice(), page)
    }

    fn end_of(&self, _hand: &mut (), sort: Sort, lo: u64, hi: u64) -> u64 {
        end_of(self.stored.blocks.as_slice(), sort, lo, hi)
    }

    fn highest_fit(&self, _hand: &mut (), window: u64, pages: u64) -> Option<u64> {
        highest_fit(self.stored.blocks.as_slice(), window, pages)
    }
}
